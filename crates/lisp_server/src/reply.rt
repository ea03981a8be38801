//! The Map-Notify that answers an accepted Map-Register (RFC 9301 section 5.7).

ghost use Rattle.std.specs.Prelude.{◌≡◌, IfOk, OnErr};
ghost use Rattle.lisp_server.specs.Checks.{wanted_reply};

use lisp_hmac::Key;
use lisp_memory::Memory;
use lisp_messages::{MapNotify, write_notify_under};
use lisp_records::Bytes;
use std::alloc::AllocError;

/// The bytes of a Map-Notify under a key, where one is wanted.
pub(crate) fn reply<A: Memory>(
    alloc: A,
    wanted: bool,
    notify: &MapNotify<A>,
    key: &Key,
) -> Result<Option<Bytes<A>>, AllocError>
    ensures reply { IfOk result (λ reply. reply ≡ wanted_reply wanted key.now notify.now) }
    ensures memory { OnErr result A.may_refuse }
{
    if !wanted {
        return Ok(None);
    }
    Ok(Some(Bytes::from_vec(write_notify_under(alloc, notify, key)?)))
}
