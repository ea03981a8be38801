//! The mapping records of LISP control messages (RFC 9301 section 5.4): addresses, EID-Prefixes,
//! locators, reading and writing a record as bytes, the records that a router registers, and the rows
//! that a Map-Server holds.
//!
//! # Decisions
//!
//! - The records of a message are a list type, `Records`, and kept bytes are `Bytes`, so that contracts see lists.
//! - `MapRecord` has as an invariant that its fields are in range and its addresses whole, so that writing one checks nothing.
//!   `MapRecord::new` still walks the locators that it is given: a proof knows nothing of the elements of a list that is passed
//!   in.
//! - A database is cut by its order alone: a part takes records as long as they fit, and the next part begins with the first
//!   that doesn't. So there is one way to cut it, and an operator sees from the list which record is in which part.
//! - A `Database` keeps where its parts begin and end, 17 numbers beside its records. So which records a part has takes no
//!   memory and no walk.
//! - The smallest fields of a `Row` stand last, so that it has 128 bytes with none unused between its fields: a longer value is
//!   moved by calls of `memcpy`.
//! - A row is moved 16 bytes at a time, and a load that needs two such stores waits for both. So the nonce stands before the
//!   router, the EID-Prefix first in a record, and prefixes are compared where they lie (`eid_cmp`, `eid_ref`).
//! - Addresses are compared, and cleared after their mask, as numbers of 32 or 128 bits: in network byte order both orders are
//!   the same (`proofs/Numbers.antt`). Byte by byte took more instructions, and loops that had to be proved.
//! - xTR-IDs are compared as numbers where each refreshed row is found (`RouterId::is_same`). The derived `==` of 16 bytes is a
//!   call.
//! - All of a record before its locators is put together and written at once (`put_front`), by the family of its address. So
//!   the compiler knows how many bytes it moves, and the room is tested once.
//! - `read_record` has no inlining hint: LLVM inlines it by itself, and with a hint it took more instructions.
#![tactic(auto)]

mod address;
mod bytes;
mod database;
mod fault;
mod flags;
pub mod laws;
mod layout;
mod locator;
mod parts;
mod prefix;
mod record;
mod records;
mod router;
mod row;

pub use address::{Addr, Family};
pub use bytes::Bytes;
pub use database::{Database, DatabaseFault, MAX_DATABASE_RECORDS};
pub use fault::RecordFault;
pub use flags::is_set;
pub use layout::{RecordLayout, locator_at, record_layout};
pub use locator::Locator;
pub use parts::{MAX_PARTS, MAX_RECORDS, MAX_SIZE};
pub use prefix::Prefix;
pub use record::{MAX_LOCATORS, MapRecord, read_record, write_record};
pub use records::Records;
pub use router::RouterId;
pub use row::{MAX_MOMENT, Row};
