//! Exchanges by hand: what is asked, and what is told.

ghost use Rattle.std.specs.Prelude.{◌≤◌, IfSome, length, map};
ghost use Rattle.std.specs.List.{AllByRecursion};
ghost use Rattle.smb_session.specs.Tokens.{HaveOwnTokens};
ghost use Rattle.smb_session.specs.Answers.{known_user};

use smb_session::{SessionFault, Sessions, SetupAsk, SetupStatus, Tokens, User, Window};
use smb_wire::{Dialect, Units};
use std::alloc::Global;

/// A text of ASCII in UTF-16.
fn utf16(alloc: Global, text: &[u8]) -> Option<Vec<u8>> {
    let mut bytes = Vec::new(alloc);
    for letter in text {
        bytes.extend_from_slice(&[*letter, 0]).ok()?;
    }
    Some(bytes)
}

/// Sessions of the share `data` over tokens, with connections 1 and 2.
fn sessions_over(alloc: Global, tokens: Tokens) -> Option<Sessions<Tokens>> {
    let share = Units::of(b"d\0a\0t\0a\0")?;
    let mut sessions = Sessions::new(alloc, tokens, share).ok()?;
    sessions.connect(1).ok()?;
    sessions.connect(2).ok()?;
    Some(sessions)
}

/// Ann, and Bob who may only read.
fn users(alloc: Global) -> Option<Vec<User>>
    ensures names { IfSome result (λ users. AllByRecursion (λ user. length user.name.items ≤ 256) users.items) }
    ensures tokens { IfSome result (λ users. HaveOwnTokens (map known_user users.items)) }
{
    let ann = User {
        name: Vec::from_slice(alloc, b"ann").ok()?,
        token: Vec::from_slice(alloc, b"a").ok()?,
        read_only: false,
    };
    let bob = User {
        name: Vec::from_slice(alloc, b"bob").ok()?,
        token: Vec::from_slice(alloc, b"b").ok()?,
        read_only: true,
    };
    vec![in alloc; ann, bob].ok()
}

/// Sessions by the tokens of the two.
fn by_tokens(alloc: Global, guest: bool) -> Option<Sessions<Tokens>> {
    let tokens = Tokens::new(alloc, b"hi", guest, false, users(alloc)?).ok()?;
    sessions_over(alloc, tokens)
}

/// What a SESSION_SETUP came to.
#[derive(Clone, Copy, PartialEq)]
enum Told {
    Done(u64, SetupStatus, u16, Option<u64>),
    Refused(SessionFault),
}

/// Asks with a token of one byte, which has the flag BINDING where it is 128 or more.
fn setup(
    sessions: &mut Sessions<Tokens>,
    connection: u64,
    session: u64,
    previous_session: u64,
    token: u8,
) -> Told {
    let ask = SetupAsk {
        flags: token / 128,
        previous_session,
        signing_required: false,
        token: &[token],
    };
    match sessions.setup(connection, session, &ask) {
        Ok(done) => Told::Done(done.session, done.status, done.flags, done.ended),
        Err(fault) => Told::Refused(fault),
    }
}

/// Whether users and guests are told apart, and previous sessions end.
fn lets_in(sessions: &mut Sessions<Tokens>) -> bool {
    for (connection, session, previous, token, told) in [
        (1, 0, 0, b'a', Told::Done(1, SetupStatus::Success, 0, None)),
        // a guest ends no session of a user
        (2, 0, 1, b'?', Told::Done(2, SetupStatus::Success, 1, None)),
        (
            2,
            0,
            1,
            b'a',
            Told::Done(3, SetupStatus::Success, 0, Some(1)),
        ),
        (2, 3, 0, b'a', Told::Refused(SessionFault::NotAccepted)),
        (1, 3, 0, b'a', Told::Refused(SessionFault::UnknownSession)),
        // BINDING
        (2, 0, 0, 128, Told::Refused(SessionFault::NotAccepted)),
        // a connection that is not known
        (3, 0, 0, b'a', Told::Refused(SessionFault::NotAccepted)),
    ] {
        if setup(sessions, connection, session, previous, token) != told {
            return false;
        }
    }
    sessions.hello() == b"hi".as_slice()
}

/// Whether connection 2 has the sessions 2 and 3, and then is gone.
fn ends_two(sessions: &mut Sessions<Tokens>) -> bool {
    sessions.end_connection(2) == Some(2)
        && sessions.end_connection(2) == Some(3)
        && sessions.end_connection(2).is_none()
}

/// Whether users and guests come in, and a connection ends with its sessions.
fn lets_in_and_ends(sessions: &mut Sessions<Tokens>) -> bool {
    lets_in(sessions) && ends_two(sessions)
}

#[test]
fn knows_users_and_guests(rt: HostRuntime) {
    let is_so = match by_tokens(rt.alloc(), true) {
        Some(mut sessions) => lets_in_and_ends(&mut sessions),
        None => false,
    };
    assert!(rt; is_so);
}

/// Whether Ann's session may write, and Bob's may not, and neither is another connection's.
fn keeps_rights(sessions: &mut Sessions<Tokens>) -> bool {
    let _ = setup(sessions, 1, 0, 0, b'a');
    let _ = setup(sessions, 1, 0, 0, b'b');
    sessions.read_only(1, 1) == Some(false)
        && sessions.read_only(1, 2) == Some(true)
        && sessions.read_only(2, 2).is_none()
}

#[test]
fn knows_who_may_only_read(rt: HostRuntime) {
    let is_so = match by_tokens(rt.alloc(), false) {
        Some(mut sessions) => keeps_rights(&mut sessions),
        None => false,
    };
    assert!(rt; is_so);
}

/// Whether session 1 is connected to the share by a path, as this tree.
fn connects(sessions: &mut Sessions<Tokens>, alloc: Global, text: &[u8], tree: u32) -> bool {
    let Some(path) = utf16(alloc, text) else {
        return false;
    };
    match Units::of(&path) {
        Some(path) => sessions.tree_connect(1, 1, path) == Ok(tree),
        None => false,
    }
}

/// Whether no other path leads to the share.
fn connects_no_other(sessions: &mut Sessions<Tokens>, alloc: Global) -> bool {
    for text in [
        b"\\\\s\\data\\".as_slice(),
        b"\\\\s\\dat",
        b"\\\\s\\",
        b"\\\\\\data",
        b"\\\\s",
        b"\\s\\data",
        b"s\\data",
        b"",
    ] {
        if connects(sessions, alloc, text, 3) {
            return false;
        }
    }
    true
}

/// Whether tree 1 is left once, and the session is ended once, by its connection alone.
fn leaves(sessions: &mut Sessions<Tokens>) -> bool {
    let unknown = Err(SessionFault::UnknownSession);
    sessions.knows(1, 1, Some(1))
        && sessions.tree_disconnect(2, 1, 1) == unknown
        && sessions.tree_disconnect(1, 1, 1) == Ok(())
        && sessions.tree_disconnect(1, 1, 1) == Err(SessionFault::UnknownTree)
        && sessions.logoff(2, 1) == unknown
        && sessions.logoff(1, 1) == Ok(())
        && !sessions.knows(1, 1, None)
}

/// Whether Ann comes, and a stranger does not.
fn denies_strangers(sessions: &mut Sessions<Tokens>) -> bool {
    let ann = Told::Done(1, SetupStatus::Success, 0, None);
    let denied = Told::Done(2, SetupStatus::LogonFailure, 0, None);
    setup(sessions, 1, 0, 0, b'a') == ann && setup(sessions, 1, 0, 0, b'?') == denied
}

/// Whether Ann comes, connects to the share by two paths and no other, and leaves.
fn comes_and_goes(sessions: &mut Sessions<Tokens>, alloc: Global) -> bool {
    denies_strangers(sessions)
        && connects(sessions, alloc, b"\\\\s\\data", 1)
        && connects(sessions, alloc, b"\\\\server\\DaTa", 2)
        && connects_no_other(sessions, alloc)
        && leaves(sessions)
}

#[test]
fn connects_and_leaves(rt: HostRuntime) {
    let alloc = rt.alloc();
    let is_so = match by_tokens(alloc, false) {
        Some(mut sessions) => comes_and_goes(&mut sessions, alloc),
        None => false,
    };
    assert!(rt; is_so);
}

/// Whether the greatest dialect is chosen, of all, of the first and an odd byte, and of none.
fn chooses(sessions: &Sessions<Tokens>) -> bool {
    let dialects = [0x02, 0x02, 0x10, 0x02, 0x00, 0x03, 0x11, 0x03];
    sessions.negotiate(1, &dialects) == Ok(Dialect::Smb210)
        && sessions.negotiate(1, &dialects[..3]) == Ok(Dialect::Smb202)
        && sessions.negotiate(1, &dialects[4..]) == Err(SessionFault::NoDialect)
}

#[test]
fn chooses_the_greatest_dialect(rt: HostRuntime) {
    let is_so = match by_tokens(rt.alloc(), false) {
        Some(sessions) => chooses(&sessions),
        None => false,
    };
    assert!(rt; is_so && Dialect::Smb202.revision() == 0x0202);
}

/// Whether a window that has the numbers from 2 to 255, but 10, gives runs of them whole or not at all.
fn takes_runs() -> bool {
    let mut window = Window::new(0);
    window.grant(255) == 255
        && window.take_runs(&[(0, 2), (10, 1)])
        && !window.take_runs(&[(2, 0xffff)])
        && !window.take_runs(&[(u64::MAX, 3)])
        && !window.take_runs(&[(254, 3)])
        && !window.take_runs(&[(8, 3)])
        && !window.take_runs(&[(20, 4), (16, 5)])
        && !window.take_runs(&[(16, 5), (20, 4)])
        && !window.take_runs(&[(16, 2), (9, 2)])
        && window.take_runs(&[(16, 5), (21, 3), (255, 1), (8, 2)])
        && !window.holds(8)
        && !window.holds(23)
        && window.holds(24)
        && window.holds(11)
        && window.take_runs(&[(24, 231), (2, 0)])
        && !window.holds(254)
        && window.holds(2)
}

#[test]
fn runs_of_a_window(rt: HostRuntime) {
    assert!(rt; takes_runs());
}

/// Whether a window has 256 numbers at most, each of which is used once.
fn grants_and_takes() -> bool {
    let mut window = Window::new(0);
    window.grant(300) == 255
        && window.grant(1) == 0
        && !window.take_runs(&[(3, 1), (3, 1)])
        && !window.take_runs(&[(3, 1), (256, 1)])
        && window.take_runs(&[(3, 1), (0, 1)])
        && !window.holds(3)
        && window.grant(0) == 1
        && window.holds(256)
}

#[test]
fn a_window(rt: HostRuntime) {
    assert!(rt; grants_and_takes());
}
