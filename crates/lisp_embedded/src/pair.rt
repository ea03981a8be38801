//! Which nonce a datagram needs.

ghost use Rattle.std.specs.Prelude.{◌≡◌, Some};
ghost use Rattle.lisp_nonces.specs.declared.pair.Pair.{Pair};
ghost use Rattle.lisp_embedded.specs.Host.{pair_in};

use lisp_admission::pair_of;
use lisp_messages::{Head, Message, message_layout};
use lisp_nonces::{Pair, PairKind};
use lisp_records::RouterId;
use std::alloc::Allocator;

/// The pair whose last nonce a datagram needs: of a Map-Register, that of its router (Site-ID and xTR-ID) under its Key ID;
/// `None` of any other message, and of bytes that are none. Takes no memory: `alloc` is only that of lists which stay empty.
/// Nothing is checked yet: anyone may have sent it.
pub fn pair_needed<A: Allocator + Copy>(alloc: A, bytes: &[u8]) -> Option<Pair>
    ensures { result ≡ pair_in bytes.now }
{
    match message_layout(alloc, bytes) {
        Ok(layout) => match &layout.fields {
            Message::Register(register) => Some(pair_of(register)),
            Message::Notify(_) => None,
        },
        Err(_) => None,
    }
}

/// The pair that `pair_needed` finds, where it finds one, by the Key ID in the head and the 24 bytes at the end alone: no record
/// is read. Of bytes that are no Map-Register it may be any pair. Takes no memory.
pub(crate) fn pair_at_ends(bytes: &[u8]) -> Option<Pair>
    ensures { (pair : Pair) → pair_in bytes.now ≡ Some pair → result ≡ Some pair }
{
    let Some(head) = Head::read(bytes) else {
        return None;
    };
    // The end is read here, since the codec comes to it behind the records alone.
    let Some((front, site)) = bytes.split_last_chunk::<8>() else {
        return None;
    };
    let Some((_, xtr)) = front.split_last_chunk::<16>() else {
        return None;
    };
    Some(Pair {
        kind: PairKind::Received,
        router: RouterId {
            site: u64::from_be_bytes(*site),
            xtr: *xtr,
        },
        key: head.key_id,
    })
}
