//! A share that is served to its peers.

ghost use Rattle.std.specs.Prelude.{◌≡◌, ◌&&◌, ◌+◌, ◌++◌, ◌∷◌, [], ◌<◌, ◌≤◌, ℕ, List, length, take, drop, nat_lt, true, false, is_some, IfSome, if◌then◌else◌};
ghost use Rattle.std.specs.List.{position};
ghost use Rattle.smb_peers.specs.Record.{Keeping, PeerCall, close};
ghost use Rattle.smb_peers.specs.Peers.{call_of, OpensOnce};
ghost use Rattle.smb_serving.specs.ServedPeers.{peer_of};
ghost use Rattle.smb_serving.specs.ServingParts.{place_of, place_for, serving, told, IsSent, stays, share_behind_end, peers_behind_end};
ghost use Rattle.smb_serving.specs.Serving.{OpeningFollows, PieceFollows, Follows, AreServed, Served, ServedUntilStopped};
ghost use Rattle.smb_serving.specs.Restless.{AreInOrder, AreKept, AreNoted, AreTracked, AreTrackedTo, HasPartAt, Leaves, next_place};
ghost use Rattle.smb_serving.specs.Openings.{Begins, OpensIn, TurnOf};
ghost use Rattle.smb_serving.specs.ServingLaws.{OpensEachOnce};

use super::kept_noted::{KeptNoted, note_kept};
use super::places::{find_peer, has_peer, place_behind};
use super::served_peer::ServedPeer;
use super::served_peers::{Part, ServedPeers};
use super::watcher::Watcher;
use smb_engine::Share;
use smb_opens::Opens;
use smb_peers::{Clock, Observer, PeerEvent, Peers, Stopping};
use smb_session::Authenticator;
use smb_tree::Tree;

/// What came of an opening.
pub enum Opening {
    Done,
    Refused,
    NoMemory,
}

/// Opens a connection of the share for a new peer, where the share has room. Room for the peer is made first.
fn begin<A: Authenticator + Drop, T: Tree + Drop, O: Opens + Drop>(
    share: &mut Share<A, T, O>,
    served: &mut ServedPeers,
    number: u64,
) -> Opening
    requires { AreTracked share.old served.old }
    ensures begins { Begins number share.old served.old.peers.items share.new served.new.peers.items result }
    ensures tracked { AreTracked share.new served.new }
{
    if !share.has_room() {
        return Opening::Refused;
    }
    if !served.make_room() {
        return Opening::NoMemory;
    }
    let Ok(connection) = share.opened() else {
        return Opening::NoMemory;
    };
    let place = place_behind(&served.peers, number);
    let peer = ServedPeer::new(share.allocator(), number, connection);
    served.all = true;
    match served.peers.insert(place, peer) {
        Ok(()) => Opening::Done,
        Err(_) => unreachable!(),
    }
}

/// Takes the opening of a number, and returns whether memory ran out.
fn open_peer<A: Authenticator + Drop, T: Tree + Drop, O: Opens + Drop, P: Peers>(
    share: &mut Share<A, T, O>,
    peers: &mut P,
    served: &mut ServedPeers,
    number: u64,
) -> bool
    requires { AreTracked share.old served.old }
    ensures follows { Keeping (P.keeps peers.old) (P.keeps peers.new) ((moments : List ℕ) (n : ℕ) →
        OpeningFollows number (serving share.old served.old.peers.items (P.calls peers.old) moments n)
        (serving share.new served.new.peers.items (P.calls peers.new) moments (if result then n + 1 else n))) }
    ensures tracked { AreTracked share.new served.new }
    ensures opened { P.opened peers.new ≡ P.opened peers.old }
{
    if has_peer(&served.peers, number) {
        return false;
    }
    match begin(share, served, number) {
        Opening::Done => false,
        Opening::Refused => {
            peers.close(number);
            false
        }
        Opening::NoMemory => {
            peers.close(number);
            true
        }
    }
}

/// Takes a piece of a number's stream, and returns after how many requests memory ran out, where it did.
fn take_bytes<A: Authenticator + Drop, T: Tree + Drop, O: Opens + Drop, C: Clock, W: Observer>(
    share: &mut Share<A, T, O>,
    clock: &mut C,
    served: &mut ServedPeers,
    number: u64,
    piece: &[u8],
    observer: &mut W,
) -> Option<usize>
    requires { AreTracked share.old served.old }
    ensures fed { Keeping (C.keeps clock.old) (C.keeps clock.new) ((calls : List PeerCall) (n : ℕ) →
        PieceFollows A.meaning number piece.now (serving share.old served.old.peers.items calls (C.moments clock.old) n)
        (serving share.new served.new.peers.items calls (C.moments clock.new) (if is_some result then n + 1 else n))) }
    ensures tracked { AreTracked share.new served.new }
{
    let Some(place) = find_peer(&served.peers, number) else {
        return None;
    };
    let peer = &mut served.peers[place];
    if !share.is_open(peer.connection) {
        return None;
    }
    let moment = clock.moment();
    match peer.take_piece(share, moment, piece, observer) {
        Ok(()) => {
            if !share.is_open(peer.connection) {
                served.all = true;
                return None;
            }
            served.note(place);
            None
        }
        Err(cut) => {
            served.all = true;
            Some(cut.done)
        }
    }
}

/// Takes the end of a number by its peers.
fn end_peer<A: Authenticator + Drop, T: Tree + Drop, O: Opens + Drop>(
    share: &mut Share<A, T, O>,
    served_peers: &mut Vec<ServedPeer>,
    number: u64,
)
    requires { AreInOrder served_peers.old.items }
    ensures share { share.new ≡ share_behind_end share.old served_peers.old.items number }
    ensures served_peers { served_peers.new.items ≡ peers_behind_end served_peers.old.items number }
    ensures order { AreInOrder served_peers.new.items }
    ensures counts { length served_peers.new.items ≡ length served_peers.old.items }
{
    if let Some(place) = find_peer(served_peers, number) {
        let peer = &mut served_peers[place];
        share.ended(peer.connection);
        peer.drop_owed();
    }
}

/// The next event of the peers, which hear before it how much the share holds, where they want to know.
fn next_event<A: Authenticator + Drop, T: Tree + Drop, O: Opens + Drop, P: Peers>(
    share: &Share<A, T, O>,
    peers: &mut P,
) -> PeerEvent
    ensures told { Keeping (P.keeps peers.old) (P.keeps peers.new)
        (P.calls peers.new ≡ P.calls peers.old ++ call_of result (P.piece_of peers.new) ∷ []) }
    ensures once { OpensOnce result (P.opened peers.old) (P.opened peers.new) }
{
    if peers.wants_usage() {
        peers.note_usage(share.usage());
    }
    peers.next()
}

/// Takes the next event, and returns whether memory ran out.
fn take_event<
    A: Authenticator + Drop,
    T: Tree + Drop,
    O: Opens + Drop,
    P: Peers,
    C: Clock,
    W: Observer,
>(
    share: &mut Share<A, T, O>,
    peers: &mut P,
    clock: &mut C,
    served: &mut ServedPeers,
    observer: &mut W,
) -> bool
    requires { AreTracked share.old served.old }
    ensures follows { Keeping (P.keeps peers.old && C.keeps clock.old) (P.keeps peers.new && C.keeps clock.new)
        ((call : PeerCall) × OpensIn call (P.opened peers.old) (P.opened peers.new) × ((n : ℕ) →
        Follows A.meaning call (told (serving share.old served.old.peers.items (P.calls peers.old) (C.moments clock.old) n) call)
        (serving share.new served.new.peers.items (P.calls peers.new) (C.moments clock.new) (if result then n + 1 else n)))) }
    ensures tracked { AreTracked share.new served.new }
{
    match next_event(share, peers) {
        PeerEvent::Opened(number) => open_peer(share, peers, served, number),
        PeerEvent::Bytes(number) => {
            match take_bytes(share, clock, served, number, peers.piece(), observer) {
                Some(done) => {
                    peers.ran_out(number, done);
                    true
                }
                None => false,
            }
        }
        PeerEvent::Ended(number) => {
            served.all = true;
            end_peer(share, &mut served.peers, number);
            false
        }
        PeerEvent::Idle => false,
    }
}

/// Sends a peer what it is owed, and returns whether the send was done: where it failed, the connection has ended.
fn send_owed<A: Authenticator + Drop, T: Tree + Drop, O: Opens + Drop, P: Peers>(
    share: &mut Share<A, T, O>,
    peers: &mut P,
    peer: &mut ServedPeer,
) -> bool
    ensures sent { Keeping (P.keeps peers.old) (P.keeps peers.new)
        (IsSent peer.old share.old (P.calls peers.old) (record { share = share.new; peer = peer.new; calls = P.calls peers.new })) }
    ensures same { result ≡ true → share.new ≡ share.old }
    ensures number { peer.new.number ≡ peer.old.number }
    ensures opened { P.opened peers.new ≡ P.opened peers.old }
{
    if !peer.is_owed() {
        return true;
    }
    match peers.send(peer.number, peer.owed()) {
        Ok(count) => {
            peer.drop_first(count);
            true
        }
        Err(_) => {
            share.ended(peer.connection);
            peer.drop_owed();
            false
        }
    }
}

/// Closes a peer that does not stay, and returns whether it does.
fn settle<A: Authenticator + Drop, T: Tree + Drop, O: Opens + Drop, P: Peers>(
    share: &Share<A, T, O>,
    peers: &mut P,
    peer: &ServedPeer,
) -> bool
    ensures stays { result ≡ stays share.now peer.now }
    ensures told { Keeping (P.keeps peers.old) (P.keeps peers.new)
        (P.calls peers.new ≡ (if stays share.now peer.now then P.calls peers.old else P.calls peers.old ++ close peer.now.number ∷ [])) }
    ensures opened { P.opened peers.new ≡ P.opened peers.old }
{
    if peer.is_owed() || share.is_open(peer.connection) {
        return true;
    }
    peers.close(peer.number);
    false
}

/// The part of the peer at a place in a turn.
fn serve_at<A: Authenticator + Drop, T: Tree + Drop, O: Opens + Drop, P: Peers>(
    share: &mut Share<A, T, O>,
    peers: &mut P,
    served_peers: &mut Vec<ServedPeer>,
    place: usize,
) -> Part
    requires { place < length served_peers.old.items }
    ensures served { Keeping (P.keeps peers.old) (P.keeps peers.new)
        (HasPartAt place share.old served_peers.old.items (P.calls peers.old) share.new served_peers.new.items (P.calls peers.new) (next_place place result)) }
    ensures left { Leaves place share.old served_peers.old.items share.new served_peers.new.items result }
    ensures order { AreInOrder served_peers.old.items → AreInOrder served_peers.new.items }
    ensures opened { P.opened peers.new ≡ P.opened peers.old }
{
    let peer = &mut served_peers[place];
    let is_sent = send_owed(share, peers, peer);
    if !settle(share, peers, peer) {
        let _ = served_peers.remove(place);
        return Part::Closes;
    }
    if !is_sent {
        return Part::Fails;
    }
    if peer.is_owed() {
        Part::IsOwed
    } else {
        Part::Rests
    }
}

/// The part of the peer at a place in a turn, with a note where it may need something in the next one. Tells whether it stays.
fn serve_noted<A: Authenticator + Drop, T: Tree + Drop, O: Opens + Drop, P: Peers>(
    share: &mut Share<A, T, O>,
    peers: &mut P,
    served: &mut ServedPeers,
    place: usize,
) -> bool
    requires within { place < length served.old.peers.items }
    requires tracked { AreTrackedTo place share.old served.old }
    ensures served { Keeping (P.keeps peers.old) (P.keeps peers.new)
        (HasPartAt place share.old served.old.peers.items (P.calls peers.old) share.new served.new.peers.items (P.calls peers.new) (if result then place + 1 else place)) }
    ensures tracked { AreTrackedTo (if result then place + 1 else place) share.new served.new }
    ensures counts { length served.new.peers.items + (if result then 0 else 1) ≡ length served.old.peers.items }
    ensures opened { P.opened peers.new ≡ P.opened peers.old }
{
    match serve_at(share, peers, &mut served.peers, place) {
        Part::Rests => true,
        Part::IsOwed => {
            served.note_last(place);
            true
        }
        Part::Fails => {
            served.all = true;
            true
        }
        Part::Closes => {
            served.all = true;
            false
        }
    }
}

/// The parts of all peers from a place on.
fn send_from<A: Authenticator + Drop, T: Tree + Drop, O: Opens + Drop, P: Peers>(
    share: &mut Share<A, T, O>,
    peers: &mut P,
    served: &mut ServedPeers,
    first: usize,
)
    requires { AreTrackedTo first share.old served.old }
    ensures served { Keeping (P.keeps peers.old) (P.keeps peers.new) ((moments : List ℕ) (n : ℕ) →
        AreServed (drop first served.old.peers.items) (serving share.old (take first served.old.peers.items) (P.calls peers.old) moments n)
        (serving share.new served.new.peers.items (P.calls peers.new) moments n)) }
    ensures tracked { AreTracked share.new served.new }
    ensures opened { P.opened peers.new ≡ P.opened peers.old }
{
    let mut place = first;
    while place < served.peers.len() {
        if serve_noted(share, peers, served, place) {
            place += 1;
        }
    }
}

/// The parts of the peers that may need something.
fn send_restless<A: Authenticator + Drop, T: Tree + Drop, O: Opens + Drop, P: Peers>(
    share: &mut Share<A, T, O>,
    peers: &mut P,
    served: &mut ServedPeers,
)
    requires kept { AreKept served.old }
    requires noted { AreNoted share.old served.old.peers.items served.old.restless.items (length served.old.peers.items) }
    ensures served { Keeping (P.keeps peers.old) (P.keeps peers.new) ((moments : List ℕ) (n : ℕ) →
        AreServed served.old.peers.items (serving share.old [] (P.calls peers.old) moments n) (serving share.new served.new.peers.items (P.calls peers.new) moments n)) }
    ensures tracked { AreTracked share.new served.new }
    ensures opened { P.opened peers.new ≡ P.opened peers.old }
{
    let mut index = 0;
    while index < served.restless.len() && served.restless[index] < served.peers.len() {
        let place = served.restless[index];
        match serve_at(share, peers, &mut served.peers, place) {
            Part::Rests => {
                let _ = served.restless.remove(index);
            }
            Part::IsOwed => index += 1,
            Part::Fails => {
                served.all = true;
                return send_from(share, peers, served, place + 1);
            }
            Part::Closes => {
                served.all = true;
                return send_from(share, peers, served, place);
            }
        }
    }
}

/// Each peer's part of a turn, in rising number. The peers know whether what the share has is kept.
fn send_all<A: Authenticator + Drop, T: Tree + Drop, O: Opens + Drop, P: Peers>(
    share: &mut Share<A, T, O>,
    peers: &mut P,
    served: &mut ServedPeers,
    noted: KeptNoted<A, T, O>,
)
    requires noted { noted.share.value ≡ share.old }
    requires tracked { AreTracked share.old served.old }
    ensures served { Keeping (P.keeps peers.old) (P.keeps peers.new) ((moments : List ℕ) (n : ℕ) →
        AreServed served.old.peers.items (serving share.old [] (P.calls peers.old) moments n) (serving share.new served.new.peers.items (P.calls peers.new) moments n)) }
    ensures tracked { AreTracked share.new served.new }
    ensures opened { P.opened peers.new ≡ P.opened peers.old }
{
    let _ = noted;
    if !served.all {
        return send_restless(share, peers, served);
    }
    served.all = false;
    served.restless.clear();
    send_from(share, peers, served, 0);
}

/// One turn: the next event, what changed by it is kept, and then what is to be sent. Returns whether memory ran out.
fn turn<A: Authenticator + Drop, T: Tree + Drop, O: Opens + Drop, P: Peers, C: Clock, W: Observer>(
    share: &mut Share<A, T, O>,
    peers: &mut P,
    clock: &mut C,
    served: &mut ServedPeers,
    observer: &mut W,
) -> bool
    requires { AreTracked share.old served.old }
    ensures turned { Keeping (P.keeps peers.old && C.keeps clock.old) (P.keeps peers.new && C.keeps clock.new)
        ((call : PeerCall) × OpensIn call (P.opened peers.old) (P.opened peers.new) × ((n : ℕ) →
        TurnOf A.meaning call (serving share.old served.old.peers.items (P.calls peers.old) (C.moments clock.old) n)
        (serving share.new served.new.peers.items (P.calls peers.new) (C.moments clock.new) (if result then n + 1 else n)))) }
    ensures tracked { AreTracked share.new served.new }
{
    let ran_out = take_event(share, peers, clock, served, observer);
    let kept = share.keep_changes();
    let noted = note_kept(share, peers, kept);
    send_all(share, peers, served, noted);
    ran_out
}

/// Serves a share to its peers for so many turns, and returns how often memory ran out.
///
/// A turn is the next event of the peers, and then a send to each peer that is owed bytes. Before the sends the share's tree
/// keeps what changed, and the peers take note of whether it could. Where memory runs out in a piece,
/// or at an opening, that peer is closed, and the others are served on.
pub fn serve<A: Authenticator + Drop, T: Tree + Drop, O: Opens + Drop, P: Peers, C: Clock>(
    share: &mut Share<A, T, O>,
    peers: &mut P,
    clock: &mut C,
    turns: u64,
) -> u64
    ensures served { Keeping (P.keeps peers.old && C.keeps clock.old) (P.keeps peers.new && C.keeps clock.new)
        (Served A.meaning turns share.old (P.calls peers.old) (C.moments clock.old) share.new (P.calls peers.new) (C.moments clock.new) result) }
    ensures once { Keeping (P.keeps peers.old && C.keeps clock.old) (P.keeps peers.new && C.keeps clock.new)
        ((more : List PeerCall) → P.calls peers.new ≡ P.calls peers.old ++ more → OpensEachOnce more) }
{
    let mut served = ServedPeers::new(share.allocator());
    let mut count = 0;
    for _turn in 0..turns {
        if turn(share, peers, clock, &mut served, &mut ()) {
            count += 1;
        }
    }
    count
}

/// The same, for so many turns at most: it ends behind the first turn behind which the peers ask for a stop.
pub fn serve_until<
    A: Authenticator + Drop,
    T: Tree + Drop,
    O: Opens + Drop,
    P: Peers + Stopping,
    C: Clock,
>(share: &mut Share<A, T, O>, peers: &mut P, clock: &mut C, turns: u64) -> u64
    ensures served { Keeping (P.keeps peers.old && C.keeps clock.old) (P.keeps peers.new && C.keeps clock.new)
        ((performed : ℕ) × (performed ≤ turns) × (performed < turns → P.stopped peers.new ≡ true)
        × Served A.meaning performed share.old (P.calls peers.old) (C.moments clock.old) share.new (P.calls peers.new) (C.moments clock.new) result) }
    ensures stops { Keeping (P.keeps peers.old && C.keeps clock.old) (P.keeps peers.new && C.keeps clock.new)
        (ServedUntilStopped A.meaning P.calls P.stopped turns share.old peers.old (C.moments clock.old) share.new peers.new (C.moments clock.new) result) }
    ensures once { Keeping (P.keeps peers.old && C.keeps clock.old) (P.keeps peers.new && C.keeps clock.new)
        ((more : List PeerCall) → P.calls peers.new ≡ P.calls peers.old ++ more → OpensEachOnce more) }
{
    serve_until_observed(share, peers, clock, turns, &mut ())
}

/// The same as [`serve_until`], and an observer hears which requests are performed, how they are responded to, and which rules end connections.
pub fn serve_until_observed<
    A: Authenticator + Drop,
    T: Tree + Drop,
    O: Opens + Drop,
    P: Peers + Stopping,
    C: Clock,
    W: Observer,
>(share: &mut Share<A, T, O>, peers: &mut P, clock: &mut C, turns: u64, observer: &mut W) -> u64
    ensures served { Keeping (P.keeps peers.old && C.keeps clock.old) (P.keeps peers.new && C.keeps clock.new)
        ((performed : ℕ) × (performed ≤ turns) × (performed < turns → P.stopped peers.new ≡ true)
        × Served A.meaning performed share.old (P.calls peers.old) (C.moments clock.old) share.new (P.calls peers.new) (C.moments clock.new) result) }
    ensures stops { Keeping (P.keeps peers.old && C.keeps clock.old) (P.keeps peers.new && C.keeps clock.new)
        (ServedUntilStopped A.meaning P.calls P.stopped turns share.old peers.old (C.moments clock.old) share.new peers.new (C.moments clock.new) result) }
    ensures once { Keeping (P.keeps peers.old && C.keeps clock.old) (P.keeps peers.new && C.keeps clock.new)
        ((more : List PeerCall) → P.calls peers.new ≡ P.calls peers.old ++ more → OpensEachOnce more) }
{
    serve_until_watched(share, peers, clock, turns, observer, &mut ())
}

/// The same as [`serve_until_observed`], and a watcher looks at the share behind each turn.
pub fn serve_until_watched<
    A: Authenticator + Drop,
    T: Tree + Drop,
    O: Opens + Drop,
    P: Peers + Stopping,
    C: Clock,
    W: Observer,
    L: Watcher<A, T, O>,
>(
    share: &mut Share<A, T, O>,
    peers: &mut P,
    clock: &mut C,
    turns: u64,
    observer: &mut W,
    watcher: &mut L,
) -> u64
    ensures served { Keeping (P.keeps peers.old && C.keeps clock.old) (P.keeps peers.new && C.keeps clock.new)
        ((performed : ℕ) × (performed ≤ turns) × (performed < turns → P.stopped peers.new ≡ true)
        × Served A.meaning performed share.old (P.calls peers.old) (C.moments clock.old) share.new (P.calls peers.new) (C.moments clock.new) result) }
    ensures stops { Keeping (P.keeps peers.old && C.keeps clock.old) (P.keeps peers.new && C.keeps clock.new)
        (ServedUntilStopped A.meaning P.calls P.stopped turns share.old peers.old (C.moments clock.old) share.new peers.new (C.moments clock.new) result) }
    ensures once { Keeping (P.keeps peers.old && C.keeps clock.old) (P.keeps peers.new && C.keeps clock.new)
        ((more : List PeerCall) → P.calls peers.new ≡ P.calls peers.old ++ more → OpensEachOnce more) }
{
    let mut served = ServedPeers::new(share.allocator());
    let mut count = 0;
    for _turn in 0..turns {
        if turn(share, peers, clock, &mut served, observer) {
            count += 1;
        }
        watcher.look(share);
        if peers.is_stopped() {
            return count;
        }
    }
    count
}
