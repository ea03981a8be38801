//! Adding warnings to a list.

ghost use Rattle.std.specs.Prelude.{OnErr};
ghost use Rattle.lisp_check.specs.Warning.{Adds, given_of};

use crate::warning::Warning;
use lisp_memory::{FallibleVec, Memory};
use std::alloc::AllocError;

/// Adds those of these warnings that are to be given, in their order.
#[tactic(auto, using(crate::proofs::Each::steps))]
pub(crate) fn warn_of<M: Memory>(
    warnings: &mut Vec<Warning, M>,
    those: &[(bool, Warning)],
) -> Result<(), AllocError>
    ensures added { Adds result warnings.old warnings.new (given_of those.now) }
    ensures memory { OnErr result M.may_refuse }
{
    let mut rest = those;
    while let [(is_warned, warning), others @ ..] = rest {
        if *is_warned {
            warnings.try_push(*warning)?;
        }
        rest = others;
    }
    Ok(())
}
