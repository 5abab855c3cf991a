//! The record of calls on peers over memory, as it is held: a list of calls, and all bytes that they took in one list.

ghost use Rattle.std.specs.Prelude.{◌≡◌, ◌+◌, ◌<◌, ◌≤◌, ◌++◌, ◌∷◌, [], length, count_by, slice_get, vec_len, vec_capacity};
ghost use Rattle.smb_serving.specs.MemoryRecord.{count_in, bytes_of, is_sending, is_closing, taken_of};

/// A call: of `next` the place of its step; of a send how many bytes were offered, and how many of them were taken, None where it
/// was refused.
#[derive(Debug, Drop)]
pub enum Call {
    Next(usize),
    Sent {
        number: u64,
        offered: usize,
        count: Option<usize>,
    },
    Closed(u64),
}

/// Puts a call into a record that has room for it.
pub fn keep_call(calls: &mut Vec<Call>, call: Call)
    requires { vec_len calls.old < vec_capacity calls.old }
    ensures items { calls.new.items ≡ calls.old.items ++ call ∷ [] }
    ensures len { vec_len calls.new ≡ vec_len calls.old + 1 }
    ensures room { vec_capacity calls.old ≤ vec_capacity calls.new }
{
    match calls.push(call) {
        Ok(()) => {}
        Err(_) => unreachable!(),
    }
}

/// Puts bytes into a record that has room for them.
pub fn keep_bytes(taken: &mut Vec<u8>, bytes: &[u8])
    requires { vec_len taken.old + length bytes.now ≤ vec_capacity taken.old }
    ensures items { taken.new.items ≡ taken.old.items ++ bytes.now }
    ensures len { vec_len taken.new ≡ vec_len taken.old + length bytes.now }
    ensures room { vec_capacity taken.old ≤ vec_capacity taken.new }
{
    match taken.extend_from_slice(bytes) {
        Ok(()) => {}
        Err(_) => unreachable!(),
    }
}

/// How many bytes a call took.
fn count_in(call: &Call) -> usize
    ensures { result ≡ count_in call.now }
{
    match call {
        Call::Sent { count, .. } => count.unwrap_or(0),
        _ => 0,
    }
}

/// Whether a call is a send to a number.
fn is_sending(call: &Call, number: u64) -> bool
    ensures { result ≡ is_sending number call.now }
{
    match call {
        Call::Sent { number: to, .. } => *to == number,
        _ => false,
    }
}

/// Whether a call is a close of a number.
fn is_closing(call: &Call, number: u64) -> bool
    ensures { result ≡ is_closing number call.now }
{
    match call {
        Call::Closed(closed) => *closed == number,
        _ => false,
    }
}

/// The byte at an index of all that calls took for a number, where the bytes of all of them are in one list.
pub fn taken_at(calls: &[Call], bytes: &[u8], number: u64, index: usize) -> Option<u8>
    requires { bytes_of calls.now ≡ length bytes.now }
    ensures { result ≡ slice_get (taken_of number calls.now bytes.now) index }
{
    let mut left = index;
    let mut start = 0;
    for call in calls {
        let count = count_in(call);
        if is_sending(call, number) {
            if left < count {
                return Some(bytes[start + left]);
            }
            left -= count;
        }
        start += count;
    }
    None
}

/// How many of some calls are closes of a number.
pub fn closes_in(calls: &[Call], number: u64) -> usize
    ensures { result ≡ count_by (is_closing number) calls.now }
{
    calls.iter().filter(|call| is_closing(call, number)).count()
}
