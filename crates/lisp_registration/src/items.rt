//! Items that C gives to be written, made one after the other.

ghost use Rattle.std.specs.Prelude.{◌≡◌, length, IfOk, IsErrOf};
ghost use Rattle.lisp_registration.specs.Meaning.{Makes, each_in};
ghost use Rattle.lisp_registration.specs.declared.fault.WriteFault.TheVariants.{OutOfMemory};

use crate::fault::WriteFault;
use lisp_memory::{FallibleVec, Memory};

/// Plain numbers that say an item, or none.
pub(crate) trait Says {
    ghost use Rattle.std.specs.Prelude.{◌≡◌, Option};

    type Said;

    ghost said: { Self → Option Self.Said };

    /// The item; `None` where the numbers say none.
    fn said(&self) -> Option<Self::Said>
        ensures { result ≡ said self.now };
}

/// The items, in memory of `alloc`. Fault: `Field` for the first that is none.
pub(crate) fn items_of<P: Says, A: Memory>(
    alloc: A,
    plain: &[P],
) -> Result<Vec<P::Said, A>, WriteFault>
where
    P::Said: Drop,
    ensures value { Makes (λ v. v.items) result (each_in P.said plain.now) }
    ensures count { IfOk result (λ v. length v.items ≡ length plain.now) }
    ensures memory { IsErrOf result OutOfMemory → A.may_refuse }
{
    let mut items = Vec::new(alloc);
    for one in plain {
        let Some(item) = one.said() else {
            return Err(WriteFault::Field);
        };
        items.try_push(item)?;
    }
    Ok(items)
}
