//! HMAC-SHA-256, against RFC 4231 and Python's `hmac`.

use crate::support::assert_at;
use lisp_hmac::hmac_sha256;

/// A key of 25 bytes.
const COUNTING: [u8; 25] = [
    1, 2, 3, 4, 5, 6, 7, 8, 9, 10, 11, 12, 13, 14, 15, 16, 17, 18, 19, 20, 21, 22, 23, 24, 25,
];

/// Keys, messages, and the two halves of the digest: RFC 4231's cases 1 to 7, then rows of Python's. The RFC
/// has no second half of case 5, so that is Python's too.
const DIGESTS: [(&[u8], &[u8], [u128; 2]); 11] = [
    (
        &[0x0b; 20],
        b"Hi There",
        [
            0xb0344c61d8db38535ca8afceaf0bf12b,
            0x881dc200c9833da726e9376c2e32cff7,
        ],
    ),
    (
        b"Jefe",
        b"what do ya want for nothing?",
        [
            0x5bdcc146bf60754e6a042426089575c7,
            0x5a003f089d2739839dec58b964ec3843,
        ],
    ),
    (
        &[0xaa; 20],
        &[0xdd; 50],
        [
            0x773ea91e36800e46854db8ebd09181a7,
            0x2959098b3ef8c122d9635514ced565fe,
        ],
    ),
    (
        &COUNTING,
        &[0xcd; 50],
        [
            0x82558a389a443c0ea4cc819899f2083a,
            0x85f0faa3e578f8077a2e3ff46729665b,
        ],
    ),
    (
        &[0x0c; 20],
        b"Test With Truncation",
        [
            0xa3b6167473100ee06e0c796c2955552b,
            0xfa6f7c0a6a8aef8b93f860aab0cd20c5,
        ],
    ),
    (
        &[0xaa; 131],
        b"Test Using Larger Than Block-Size Key - Hash Key First",
        [
            0x60e431591ee0b67f0d8a26aacbf5b77f,
            0x8e0bc6213728c5140546040f0ee37f54,
        ],
    ),
    (
        &[0xaa; 131],
        b"This is a test using a larger than block-size key and a larger than block-size data. \
          The key needs to be hashed before being used by the HMAC algorithm.",
        [
            0x9b09ffa71b942fcb27635fbcd5b0e944,
            0xbfdc63644f0713938a7f51535c3a35e2,
        ],
    ),
    // A key of one block, and of one byte more.
    (
        &[b'k'; 64],
        b"Hi There",
        [
            0x5869e1671d6aa2838f1028b78343e7ee,
            0x54efe2c036d66bdb25451fcd74beca6e,
        ],
    ),
    (
        &[b'k'; 65],
        b"Hi There",
        [
            0xa64d953034c2c752115ac1fec7be993f,
            0xa739388556f1dc64cf82582f8d7d251c,
        ],
    ),
    // Nothing at all.
    (
        b"",
        b"",
        [
            0xb613679a0814d9ec772f95d778c35fc5,
            0xff1697c493715653c6c712144292c5ad,
        ],
    ),
    // A message of zeros.
    (
        b"Jefe",
        &[0; 16],
        [
            0x1999b614b80d00ff05cfa9cc0da446ab,
            0xdf7f98a4e50e8ea048c8551f94ff2238,
        ],
    ),
];

#[test]
fn digests_are_those_of_the_vectors(rt: HostRuntime) {
    for (row, (key, message, halves)) in DIGESTS.iter().enumerate() {
        assert_at(&rt, row, is_digest(&hmac_sha256(key, message), *halves));
    }
}

/// Whether the digest has these halves.
fn is_digest(digest: &[u8; 32], [first, second]: [u128; 2]) -> bool {
    digest.starts_with(&first.to_be_bytes()) && digest.ends_with(&second.to_be_bytes())
}
