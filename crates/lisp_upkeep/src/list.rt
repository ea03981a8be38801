//! Lists of nonces, a line for each.

ghost use Rattle.std.specs.Prelude.{◌≡◌, ◌++◌, IfOk, OnErr, OnOk};
ghost use Rattle.std.specs.Option.{option_to_list};
ghost use Rattle.lisp_upkeep.specs.Line.{nonce_of};
ghost use Rattle.lisp_upkeep.specs.List.{is_blank, is_comment, is_right, GivesList};

use crate::accepted_nonce::AcceptedNonce;
use crate::line::nonce_from_line;
use crate::list_fault::ListFault;
use lisp_memory::{FallibleVec, Memory};
use std::alloc::AllocError;

/// The nonces of the lines `kept ..` of a text, in their order. Lines end with a line feed; a carriage return before it is dropped. Lines
/// of nothing but spaces, and those that begin with `#`, are skipped.
///
/// The first line of another form is the fault, with its number, from 1 on.
pub fn read_list<A: Memory + Copy>(alloc: A, text: &str) -> Result<Vec<AcceptedNonce, A>, ListFault>
    ensures { GivesList A.may_refuse text.now result }
{
    let mut nonces = Vec::new(alloc);
    for (place, line) in text.lines().enumerate() {
        if !add_line(alloc, line, &mut nonces)? {
            return Err(ListFault::Line(place + 1));
        }
    }
    Ok(nonces)
}

// Adds the nonce of a line, if it has one. Whether it is a line of a list.
fn add_line<A: Memory + Copy>(
    alloc: A,
    line: &str,
    nonces: &mut Vec<AcceptedNonce, A>,
) -> Result<bool, AllocError>
    ensures right { IfOk result (λ right. right ≡ is_right line.now) }
    ensures added { OnOk result (nonces.new.items
        ≡ nonces.old.items ++ option_to_list (nonce_of line.now)) }
    ensures memory { OnErr result A.may_refuse }
{
    match nonce_from_line(alloc, line)? {
        Some(nonce) => {
            nonces.try_push(nonce)?;
            Ok(true)
        }
        None => Ok(is_blank(line) || is_comment(line)),
    }
}

fn is_blank(line: &str) -> bool
    ensures { result ≡ is_blank line.now }
{
    line.as_bytes().iter().all(|byte| *byte == b' ')
}

fn is_comment(line: &str) -> bool
    ensures { result ≡ is_comment line.now }
{
    matches!(line.as_bytes(), [b'#', ..])
}
