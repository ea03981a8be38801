//! Reading the whole input.

ghost use Rattle.std.specs.Prelude.{◌≤◌, vec_len, IfOk, IfErr, IsErrOf};
ghost use Rattle.lisp_script.specs.Input.{most_bytes, IsTooLong, ReadsAll};
ghost use Rattle.lisp_script.specs.PlayFault.{IsReadingFault};

use crate::play_fault::PlayFault;
use lisp_memory::{FallibleVec, Memory};
use std::io::{ErrorKind, Read};

/// The most bytes of an input.
const MOST_BYTES: usize = 1_048_576;

/// The most reads of an input.
const MOST_READS: u32 = 2_097_152;

/// The bytes of the input, to its end. `TooLong` where they are more than 1,048,576; `Read` where a read fails, or
/// 2,097,152 reads are not enough.
pub fn read_to_end<A: Memory, R: Read>(alloc: A, reader: &mut R) -> Result<Vec<u8, A>, PlayFault>
    ensures whole { ReadsAll result (R.remaining reader.old) }
    ensures short { IfOk result (λ bytes. vec_len bytes ≤ most_bytes) }
    ensures memory { IsErrOf result PlayFault.OutOfMemory → A.may_refuse }
    ensures too_long { IsErrOf result PlayFault.TooLong → IsTooLong (R.remaining reader.old) }
    ensures faults { IfErr result (λ fault. IsReadingFault fault) }
{
    let mut bytes = Vec::new(alloc);
    for _ in 0..MOST_READS {
        let mut next = [0];
        match reader.read(&mut next) {
            Ok(0) => return Ok(bytes),
            Ok(_) => {
                if bytes.len() == MOST_BYTES {
                    return Err(PlayFault::TooLong);
                }
                let [byte] = next;
                bytes.try_push(byte)?;
            }
            Err(error) => {
                if error.kind() != ErrorKind::Interrupted {
                    return Err(PlayFault::Read);
                }
            }
        }
    }
    Err(PlayFault::Read)
}
