//! What a token is answered.

ghost use Rattle.std.specs.Prelude.{◌≡◌, ◌≤◌, length, find, option_copied, IfOk};
ghost use Rattle.smb_ntlm.specs.Messages.{login_asked, challenge_message};
ghost use Rattle.smb_ntlm.specs.Proof.{challenge, is_named};
ghost use Rattle.smb_ntlm.specs.Tokens.{answer_token};
ghost use Rattle.smb_ntlm.specs.Login.{guest_user, lets_in, first_answer, login_rows, message_rows, login_answer};
ghost use Rattle.smb_ntlm.specs.Gates.{known_entry, gate_state, negotiate_answer, decided};

use super::decision::Decision;
use super::entry::Entry;
use super::messages::{
    CHALLENGE_SIZE, Login, NEGOTIATE, answered_flags, asked_flags, has_unicode, is_message,
    message_type, put_challenge,
};
use super::signing::SigningMode;
use super::token::{Token, Wrapping, ask_token};
use md5::{Digest, Md5};
use smb_refusals::LoginRefusal;
use smb_session::{Answer, Signing};
use smb_wire::WireFault;
use smb_wire::limits::LONGEST_TOKEN;
use std::alloc::{AllocError, Global};

/// The session flag of a guest ([MS-SMB2] 2.2.6).
const IS_GUEST: u16 = 1;

/// What a login is decided by.
#[derive(Clone, Copy)]
pub struct Gate<'a> {
    pub alloc: Global,
    pub seed: &'a [u8; 16],
    pub entries: &'a [Entry],
    pub guest: bool,
    pub guest_read_only: bool,
    pub signing: SigningMode,
}

/// The challenge of a session.
#[tactic(auto, unfolding(crate::specs::Proof::challenge))]
fn challenge(seed: &[u8; 16], session: u64) -> [u8; 8]
    ensures { result ≡ challenge seed.now session }
{
    let mut hasher = Md5::new();
    hasher.update(seed.as_slice());
    hasher.update(session.to_le_bytes().as_slice());
    let digest = hasher.finalize();
    let mut challenge = [0u8; 8];
    challenge.copy_from_slice(&digest[..8]);
    challenge
}

/// The guest of a session, as a user.
fn guest_user(alloc: Global, session: u64) -> Result<Vec<u8>, AllocError>
    ensures { IfOk result (λ user. user.items ≡ guest_user session) }
{
    let text = format!(in alloc; "guest\0{session}")?;
    Ok(text.into_bytes())
}

/// The account of a user.
fn find_entry<'a>(entries: &'a [Entry], user: &[u8]) -> Option<&'a Entry>
    ensures { option_copied result ≡ find (λ entry. is_named user.now (known_entry entry)) entries.now }
{
    entries.iter().find(|entry| entry.is_named(user))
}

/// The token of a CHALLENGE with these flags.
fn challenge_token(
    alloc: Global,
    wrapping: Wrapping,
    flags: u32,
    challenge: &[u8; 8],
) -> Result<Vec<u8>, WireFault>
    ensures { IfOk result (λ token. token.items ≡ answer_token wrapping (challenge_message flags challenge.now)) }
{
    let front = wrapping.front();
    let mut token = Vec::with_capacity(alloc, front.len() + CHALLENGE_SIZE)?;
    token.extend_from_slice(front)?;
    put_challenge(&mut token, flags, challenge)?;
    Ok(token)
}

/// Lets a user in, to read only or to write too; as a guest unless its session is signed.
fn let_in<'a>(
    alloc: Global,
    wrapping: Wrapping,
    user: Vec<u8>,
    read_only: bool,
    signing: Option<Signing>,
) -> Result<Decision<'a>, AllocError>
    ensures { IfOk result (λ decision. decided decision ≡ lets_in wrapping user.items read_only signing) }
{
    Ok(Decision::Answers(Answer::Accept {
        user,
        flags: if signing.is_some() { 0 } else { IS_GUEST },
        read_only,
        signing,
        token: Vec::from_slice(alloc, wrapping.last_token())?,
    }))
}

/// What a login is answered.
fn answer_login<'a>(
    gate: Gate<'_>,
    session: u64,
    wrapping: Wrapping,
    login: &Login<'a>,
) -> Result<Decision<'a>, AllocError>
    ensures { IfOk result (λ decision. decided decision ≡
        first_answer (login_rows (gate_state gate.entry) session wrapping (login_asked login.now))) }
{
    match find_entry(gate.entries, login.user) {
        Some(entry) => match entry.session_key(&challenge(gate.seed, session), login) {
            Some(key) => {
                let user = Vec::from_slice(gate.alloc, &entry.account.name)?;
                let signing = gate.signing.signing_by(key);
                let_in(gate.alloc, wrapping, user, entry.account.read_only, signing)
            }
            None => Ok(Decision::denial(LoginRefusal::ProofWrong, login.user)),
        },
        None if gate.guest => {
            let user = guest_user(gate.alloc, session)?;
            let_in(gate.alloc, wrapping, user, gate.guest_read_only, None)
        }
        None => Ok(Decision::denial(LoginRefusal::NoGuests, login.user)),
    }
}

/// What a NEGOTIATE is answered.
fn answer_negotiate<'a>(
    gate: Gate<'_>,
    session: u64,
    wrapping: Wrapping,
    message: &'a [u8],
) -> Result<Decision<'a>, AllocError>
    requires { 16 ≤ length message.now }
    ensures { IfOk result (λ decision. decided decision ≡
        negotiate_answer gate.entry.signing gate.entry.seed.now session wrapping message.now) }
{
    let asked = asked_flags(message);
    if !has_unicode(asked) {
        return Ok(Decision::denial(LoginRefusal::NoUnicode, &[]));
    }
    let flags = answered_flags(gate.signing, asked);
    let challenge = challenge(gate.seed, session);
    match challenge_token(gate.alloc, wrapping, flags, &challenge) {
        Ok(token) => Ok(Decision::Answers(Answer::Continue(token))),
        Err(_) => Err(AllocError),
    }
}

/// What a message is answered.
#[tactic(auto, unfolding(crate::specs::Login::message_rows))]
fn answer_message<'a>(
    gate: Gate<'_>,
    session: u64,
    wrapping: Wrapping,
    message: &'a [u8],
) -> Result<Decision<'a>, AllocError>
    ensures { IfOk result (λ decision. decided decision ≡
        first_answer (message_rows (gate_state gate.entry) session wrapping message.now)) }
{
    if !is_message(message) {
        return Ok(Decision::denial(LoginRefusal::MessageUnknown, &[]));
    }
    if message_type(message) == NEGOTIATE {
        return answer_negotiate(gate, session, wrapping, message);
    }
    match Login::read(message) {
        Some(login) => answer_login(gate, session, wrapping, &login),
        None => Ok(Decision::denial(LoginRefusal::LoginUnreadable, &[])),
    }
}

/// What a token is answered.
#[tactic(auto, unfolding(crate::specs::Login::login_answer))]
pub fn answer_to<'a>(
    gate: Gate<'_>,
    session: u64,
    token: &'a [u8],
) -> Result<Decision<'a>, AllocError>
    ensures { IfOk result (λ decision. decided decision ≡ login_answer (gate_state gate.entry) session token.now) }
{
    if token.len() > LONGEST_TOKEN {
        return Ok(Decision::denial(LoginRefusal::TokenUnreadable, &[]));
    }
    let Some(token) = Token::read(token) else {
        return Ok(Decision::denial(LoginRefusal::TokenUnreadable, &[]));
    };
    if token.prefers_another() {
        let asked = Vec::from_slice(gate.alloc, ask_token())?;
        return Ok(Decision::Answers(Answer::Continue(asked)));
    }
    answer_message(gate, session, token.wrapping, token.message)
}
