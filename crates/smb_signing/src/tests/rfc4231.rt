//! The test cases of RFC 4231 with keys of at most 64 bytes, 4.2 to 4.6. Those of 4.7 and 4.8, test cases 6 and 7, are
//! left out: their keys have 131 bytes, and no such key comes to a session.

use crate::hmac::hmac_sha256;

/// A key, the data, and the digest or its first bytes.
#[derive(Drop)]
struct TestCase<'a> {
    key: &'a [u8],
    data: &'a [u8],
    digest: &'a str,
}

/// Whether a test case's digest is the one that is computed.
fn is_met(case: &TestCase) -> bool {
    let mut expected = [0; 32];
    let length = case.digest.len() / 2;
    if case.key.len() > 64 || length > 32 {
        return false;
    }
    let digest = hmac_sha256(case.key, case.data, &[], &[]);
    hex::decode_to_slice(case.digest, &mut expected[..length]).is_ok()
        && digest[..length] == expected[..length]
}

#[test]
fn short_keys(rt: HostRuntime) {
    let numbered: [u8; 25] = [
        1, 2, 3, 4, 5, 6, 7, 8, 9, 10, 11, 12, 13, 14, 15, 16, 17, 18, 19, 20, 21, 22, 23, 24, 25,
    ];
    for case in [
        TestCase {
            key: &[0x0b; 20],
            data: b"Hi There",
            digest: "b0344c61d8db38535ca8afceaf0bf12b881dc200c9833da726e9376c2e32cff7",
        },
        TestCase {
            key: b"Jefe",
            data: b"what do ya want for nothing?",
            digest: "5bdcc146bf60754e6a042426089575c75a003f089d2739839dec58b964ec3843",
        },
        TestCase {
            key: &[0xaa; 20],
            data: &[0xdd; 50],
            digest: "773ea91e36800e46854db8ebd09181a72959098b3ef8c122d9635514ced565fe",
        },
        TestCase {
            key: &numbered,
            data: &[0xcd; 50],
            digest: "82558a389a443c0ea4cc819899f2083a85f0faa3e578f8077a2e3ff46729665b",
        },
        TestCase {
            key: &[0x0c; 20],
            data: b"Test With Truncation",
            digest: "a3b6167473100ee06e0c796c2955552b",
        },
    ] {
        assert!(rt; is_met(&case), "{}", case.digest);
    }
}
