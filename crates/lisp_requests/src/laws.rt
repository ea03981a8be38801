//! What holds of the formats and of reading: each function's contract is a law.

ghost use Rattle.std.specs.Prelude.{◌≡◌, ℕ, List, Ok};
ghost use Rattle.lisp_records.specs.Format.{SpellsAtMostOne, SpellsOnly};
ghost use Rattle.lisp_records.specs.Result.{Reads};
ghost use Rattle.lisp_requests.specs.Checksum.{AreWords, SumsToAllOnes};
ghost use Rattle.lisp_requests.specs.Encapsulated.{EncapsulatedValue, IsEncapsulated, SpellsEncapsulated, encapsulated_at, written_encapsulated};
ghost use Rattle.lisp_requests.specs.Reply.{MapReplyValue, IsMapReply, SpellsReply, reply_at, written_reply};
ghost use Rattle.lisp_requests.specs.Request.{MapRequestValue, IsMapRequest, SpellsRequest, request_at, written_request};

use crate::fault::RequestFault;
use crate::reply::{MapReply, read_reply};
use crate::request::{MapRequest, read_request};
use lisp_memory::Memory;

/// Bytes spell at most one Map-Request.
pub fn one_request()
    ensures { SpellsAtMostOne SpellsRequest }
{}

/// What bytes spell as a Map-Request fits the format.
pub fn spelt_requests_fit()
    ensures { SpellsOnly IsMapRequest SpellsRequest }
{}

/// The written spelling of a Map-Request is one of its spellings.
#[tactic(auto, using(crate::proofs::RequestLaws::request_spelled))]
pub fn written_request_spells()
    ensures { (m : MapRequestValue) → IsMapRequest m → SpellsRequest (written_request m) m }
{}

/// What is written of a Map-Request is read again.
#[tactic(auto, using(crate::proofs::RequestLaws::reads_back))]
pub fn request_reads_back()
    ensures { (m : MapRequestValue) → IsMapRequest m → request_at (written_request m) ≡ Ok m }
{}

/// Over memory that is never refused, reading gives the Map-Request or the first fault, exactly.
#[tactic(auto, using(crate::proofs::GivenLaws::without_excuse))]
pub fn reads_request_exactly<A: Memory + Copy>(
    alloc: A,
    bytes: &[u8],
) -> Result<MapRequest<A>, RequestFault>
    ensures { (A.may_refuse → ⊥) → Reads (λ m. m) result (request_at bytes.now) }
{
    read_request(alloc, bytes)
}

/// Bytes spell at most one Map-Reply.
pub fn one_reply()
    ensures { SpellsAtMostOne SpellsReply }
{}

/// What bytes spell as a Map-Reply fits the format.
pub fn spelt_replies_fit()
    ensures { SpellsOnly IsMapReply SpellsReply }
{}

/// The written spelling of a Map-Reply is one of its spellings.
#[tactic(auto, using(crate::proofs::ReplyLaws::reply_spelled))]
pub fn written_reply_spells()
    ensures { (m : MapReplyValue) → IsMapReply m → SpellsReply (written_reply m) m }
{}

/// What is written of a Map-Reply is read again.
#[tactic(auto, using(crate::proofs::ReplyLaws::reads_back))]
pub fn reply_reads_back()
    ensures { (m : MapReplyValue) → IsMapReply m → reply_at (written_reply m) ≡ Ok m }
{}

/// Over memory that is never refused, reading gives the Map-Reply or the first fault, exactly.
#[tactic(auto, using(crate::proofs::GivenLaws::without_excuse))]
pub fn reads_reply_exactly<A: Memory + Copy>(
    alloc: A,
    bytes: &[u8],
) -> Result<MapReply<A>, RequestFault>
    ensures { (A.may_refuse → ⊥) → Reads (λ m. m) result (reply_at bytes.now) }
{
    read_reply(alloc, bytes)
}

/// Bytes spell at most one encapsulated message.
pub fn one_encapsulated()
    ensures { SpellsAtMostOne SpellsEncapsulated }
{}

/// The written spelling of an encapsulated message is one of its spellings: both headers carry their checksums.
#[tactic(auto, using(crate::proofs::SpelledLaws::encapsulated_spelled))]
pub fn written_encapsulated_spells()
    ensures { (m : EncapsulatedValue) → IsEncapsulated m
        → SpellsEncapsulated (written_encapsulated m) m }
{}

/// What is written of an encapsulated message is read again.
#[tactic(auto, using(crate::proofs::SpelledLaws::reads_back))]
pub fn encapsulated_reads_back()
    ensures { (m : EncapsulatedValue) → IsEncapsulated m
        → encapsulated_at (written_encapsulated m) ≡ Ok m }
{}

/// Words that carry their checksum sum to all ones.
#[tactic(auto, using(crate::proofs::Sums::checksummed))]
pub fn checksummed_words_sum_to_all_ones()
    ensures { (front back : List ℕ) → AreWords front → AreWords back → SumsToAllOnes front back }
{}
