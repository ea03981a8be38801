//! What holds of the format and of reading: each function's contract is a law.

ghost use Rattle.std.specs.Prelude.{◌≡◌, Ok};
ghost use Rattle.lisp_records.specs.Result.{Reads};
ghost use Rattle.lisp_records.specs.Format.{SpellsAtMostOne, SpellsOnly};
ghost use Rattle.lisp_messages.specs.Message.{IsMessage, ForEachMessage};
ghost use Rattle.lisp_messages.specs.Meaning.{message_value};
ghost use Rattle.lisp_messages.specs.Spelling.{Spells};
ghost use Rattle.lisp_messages.specs.Written.{written};
ghost use Rattle.lisp_messages.specs.Reading.{message_at};

use crate::fault::ReadFault;
use crate::message::Message;
use crate::reading::read_message;
use lisp_memory::Memory;

/// Bytes spell at most one message.
#[tactic(auto, using(crate::proofs::MessageLaws::one_message))]
pub fn one_message()
    ensures { SpellsAtMostOne Spells }
{}

/// What bytes spell fits the format.
pub fn spelt_messages_fit()
    ensures { SpellsOnly IsMessage Spells }
{}

/// The written spelling of a message is one of its spellings, whatever its Authentication Data.
#[tactic(auto, using(crate::proofs::WrittenLaws::written_spells))]
pub fn written_spells()
    ensures { ForEachMessage (λ x auth. Spells (written x auth) x) }
{}

/// What is written is read again.
#[tactic(auto, using(crate::proofs::WrittenLaws::reads_back))]
pub fn reads_back()
    ensures { ForEachMessage (λ x auth. message_at (written x auth) ≡ Ok x) }
{}

/// Over memory that is never refused, reading gives the message or the first fault, exactly.
#[tactic(auto, using(crate::proofs::ReadingLaws::without_excuse))]
pub fn reads_exactly<A: Memory + Copy>(alloc: A, bytes: &[u8]) -> Result<Message<A>, ReadFault>
    ensures { (A.may_refuse → ⊥) → Reads message_value result (message_at bytes.now) }
{
    read_message(alloc, bytes)
}
