//! Reading the one line that is answered.

ghost use Rattle.std.specs.Prelude.{◌≡◌, ◌≢◌, ◌≤◌, vec_len, Err, IfOk, IsErrOf};
ghost use Rattle.lisp_answer.specs.Input.{IsFirstLine, TakesResult, HasLongLine, content};
ghost use Rattle.lisp_answer.specs.declared.fault.AnswerFault.{AnswerFault};

use crate::fault::AnswerFault;
use lisp_memory::{FallibleVec, Memory};
use std::io::{ErrorKind, Read};

/// The most bytes of the line, its line feed among them.
const MOST_BYTES: usize = 1_048_576;

/// The most reads of the input.
const MOST_READS: u32 = 2_097_152;

/// The bytes up to the first line feed, and with it, or to the end of the input. `TooLong` where
/// they are more than 1,048,576; `Read` where a read fails, or 2,097,152 reads are not enough.
pub(crate) fn read_line<A: Memory, R: Read>(
    alloc: A,
    reader: &mut R,
) -> Result<Vec<u8, A>, AnswerFault>
    ensures line { IfOk result (λ line. IsFirstLine (R.remaining reader.old) line.items) }
    ensures rest { TakesResult result (R.remaining reader.old) (R.remaining reader.new) }
    ensures short { IfOk result (λ line. vec_len line ≤ MOST_BYTES) }
    ensures memory { IsErrOf result AnswerFault.OutOfMemory → A.may_refuse }
    ensures too_long { IsErrOf result AnswerFault.TooLong → HasLongLine (R.remaining reader.old) }
    ensures unwritten { result ≢ Err AnswerFault.Write }
{
    let mut line = Vec::new(alloc);
    for _ in 0..MOST_READS {
        let mut next = [0];
        match reader.read(&mut next) {
            Ok(0) => return Ok(line),
            Ok(_) => {
                if line.len() == MOST_BYTES {
                    return Err(AnswerFault::TooLong);
                }
                let [byte] = next;
                line.try_push(byte)?;
                if byte == b'\n' {
                    return Ok(line);
                }
            }
            Err(error) => {
                if error.kind() != ErrorKind::Interrupted {
                    return Err(AnswerFault::Read);
                }
            }
        }
    }
    Err(AnswerFault::Read)
}

/// The line without the line feed at its end, and without a carriage return before that.
pub(crate) fn content(line: &[u8]) -> &[u8]
    ensures { result.now ≡ content line.now }
{
    match line {
        [front @ .., b'\r', b'\n'] => front,
        [front @ .., b'\n'] => front,
        _ => line,
    }
}
