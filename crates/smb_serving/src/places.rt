//! The places of numbers among the peers that are served, which are in rising number: so they are found by bisection.

ghost use Rattle.std.specs.Prelude.{◌≡◌, ◌<◌, ◌≤◌, length, nat_lt, true, false, is_some, IfSome};
ghost use Rattle.std.specs.List.Sorted.{IsPartitionPoint};
ghost use Rattle.smb_serving.specs.ServedPeers.{PeerState, peer_of};
ghost use Rattle.smb_serving.specs.ServingParts.{place_of, place_for};
ghost use Rattle.smb_serving.specs.Restless.{AreInOrder};

use super::served_peer::ServedPeer;

/// The place of the first peer whose number is not below a number.
fn first_from(served_peers: &[ServedPeer], number: u64) -> usize
    requires { AreInOrder served_peers.now }
    ensures parts { IsPartitionPoint (λ (peer : PeerState). peer.number < number) (λ (peer : PeerState). number ≤ peer.number) served_peers.now result }
    ensures within { result ≤ length served_peers.now }
{
    served_peers.partition_point(|peer| peer.number < number)
}

/// The place of a number among the served peers.
pub(crate) fn find_peer(served_peers: &[ServedPeer], number: u64) -> Option<usize>
    requires { AreInOrder served_peers.now }
    ensures place { result ≡ place_of number served_peers.now }
    ensures within { IfSome result (λ place. place < length served_peers.now) }
{
    let place = first_from(served_peers, number);
    if place == served_peers.len() {
        return None;
    }
    let peer = &served_peers[place];
    if peer.number == number {
        Some(place)
    } else {
        None
    }
}

/// Whether a number has a peer.
#[tactic(auto, using(crate::proofs::Numbers::known_at))]
pub(crate) fn has_peer(served_peers: &[ServedPeer], number: u64) -> bool
    requires { AreInOrder served_peers.now }
    ensures { result ≡ is_some (peer_of number served_peers.now) }
{
    find_peer(served_peers, number).is_some()
}

/// Where a peer of a number is to be put: before the first that has a greater number.
pub(crate) fn place_behind(served_peers: &[ServedPeer], number: u64) -> usize
    requires { AreInOrder served_peers.now }
    ensures place { result ≡ place_for number served_peers.now }
    ensures parts { IsPartitionPoint (λ (peer : PeerState). peer.number ≤ number) (λ (peer : PeerState). number < peer.number) served_peers.now result }
    ensures within { result ≤ length served_peers.now }
{
    served_peers.partition_point(|peer| peer.number <= number)
}
