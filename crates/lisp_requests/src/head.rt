//! The first 12 bytes of a Map-Request and of a Map-Reply.

ghost use Rattle.std.specs.Prelude.{◌≡◌, ◌+◌, ◌∷◌, ◌<◌, ◌≤◌, ◌^◌, length};
ghost use Rattle.std.specs.Int.{w64, to_be_bytes};
ghost use Rattle.lisp_records.specs.Reading.{number_at};
ghost use Rattle.lisp_requests.specs.Request.{nonce_of};

/// How many they are: type and flags, Record Count and nonce.
pub(crate) const HEAD_LEN: usize = 12;

/// Where the type stands, and the first flags.
pub(crate) const KIND_AT: usize = 0;

/// Where the second byte of flags stands, and the third, of a Map-Request.
pub(crate) const FLAGS_AT: usize = 1;

pub(crate) const COUNTS_AT: usize = 2;

/// Where the Record Count stands.
pub(crate) const RECORD_COUNT_AT: usize = 3;

// Where the nonce begins.
const NONCE_AT: usize = 4;

/// The nonce of a message.
pub(crate) fn read_nonce(bytes: &[u8]) -> u64
    requires { 12 ≤ length bytes.now }
    ensures { result ≡ nonce_of bytes.now }
{
    let (_, after) = bytes.split_at(NONCE_AT);
    let (nonce, _) = after.split_first_chunk::<8>().unwrap();
    u64::from_be_bytes(*nonce)
}

/// Two bytes from a place on, as a number.
pub(crate) fn number_at(bytes: &[u8], at: usize) -> u16
    requires { at + 2 ≤ length bytes.now }
    ensures { result ≡ number_at bytes.now at }
{
    u16::from_be_bytes([bytes[at], bytes[at + 1]])
}

/// The first 12 bytes, by the first three, the Record Count and the nonce.
pub(crate) fn head(kind: u8, flags: u8, counts: u8, records: u8, nonce: u64) -> [u8; HEAD_LEN]
    ensures head { result ≡ kind ∷ flags ∷ counts ∷ records ∷ to_be_bytes w64 nonce }
    ensures nonce { nonce < 2 ^ 64 }
{
    let [n0, n1, n2, n3, n4, n5, n6, n7] = nonce.to_be_bytes();
    [kind, flags, counts, records, n0, n1, n2, n3, n4, n5, n6, n7]
}
