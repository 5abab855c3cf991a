//! An SMB_COM_NEGOTIATE with each kind of list.

use crate::words::frames;
use smb_body::{laws_of_smb1, read_smb1_negotiate};
use std::alloc::Global;

/// Payloads that tell which of SMB 2.??? and SMB 2.002 they list, and whether each is told.
const LISTS: [(&str, (bool, bool)); 3] = [
    (
        "ff534d42 72 z27 00 0b00 02 534d4220322e3f3f3f 00",
        (true, false),
    ),
    (
        "ff534d42 72 z27 00 1600 02 534d4220322e3f3f3f 00 02 534d4220322e303032 00",
        (true, true),
    ),
    ("ff534d42 72 z27 00 0500 0200020200", (false, false)),
];

/// Payloads that are none: a text that 02 does not begin, one that 00 does not end, a byte behind the last, more
/// bytes than there are, and parameters.
const MISFORMED: &str = "ff534d42 72 z27 00 0a00 534d4220322e303032 00
    ff534d42 72 z27 00 0a00 02 534d4220322e303032
    ff534d42 72 z27 00 0c00 02 534d4220322e303032 00 00
    ff534d42 72 z27 00 0c00 02 534d4220322e303032 00
    ff534d42 72 z27 01 0b00 02 534d4220322e303032 00";

/// What a payload tells.
fn found_in(alloc: Global, words: &str) -> Option<(bool, bool)> {
    let payload = frames(alloc, &[words])?;
    let dialects = read_smb1_negotiate(&payload)?;
    Some((dialects.smb_2_wildcard, dialects.smb_2_002))
}

#[test]
fn smb1_negotiate(rt: HostRuntime) {
    for (words, found) in LISTS {
        assert!(rt; found_in(rt.alloc(), words) == Some(found), "{words}");
    }
    for words in MISFORMED.lines() {
        assert!(rt; found_in(rt.alloc(), words).is_none(), "{words}");
    }
    laws_of_smb1();
}
