//! The messages by which others ask a Map-Server: the Map-Request (RFC 9301 section 5.2), the Map-Reply (sections 5.4
//! and 5.5) and what stands around an encapsulated Map-Request (section 5.8), read from bytes and written as bytes.
#![tactic(auto)]

mod address;
mod checksum;
mod encapsulated;
mod fault;
mod head;
mod inner;
pub mod laws;
mod layout;
mod message_type;
mod reply;
mod reply_parts;
mod request;

pub use encapsulated::{EncapsulatedRequest, message_place, read_encapsulated, write_encapsulated};
pub use fault::RequestFault;
pub use layout::{RequestLayout, eid_record_at, itr_rloc_at, request_layout};
pub use message_type::is_request;
pub use reply::{MapReply, read_reply, write_reply};
pub use reply_parts::{ReplyLayout, reply_layout};
pub use request::{MapRequest, read_request, write_request};
