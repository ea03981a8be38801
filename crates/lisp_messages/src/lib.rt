//! The three messages of LISP registration: Map-Register (RFC 9301 section 5.6), Map-Notify and
//! Map-Notify-Ack (section 5.7), read from bytes, written as bytes, and authenticated.
//!
//! # Decisions
//!
//! - That there are at most 255 records is an invariant of `MapRegister` and `MapNotify`, whose fields are public. Whoever
//!   makes a value proves it.
//! - Room for a message's records is made at once by its Record Count, and room for written bytes as if each record had one
//!   IPv4 locator. So a Map-Register of 10 records makes memory grow three times and not nine, and `OutOfMemory` may come in
//!   place of the first record's fault.
//! - Nodes keep keys that were made ready and never secrets. So beside `authentic`, `write_register` and `write_notify`, which
//!   take a secret, stand calls with `_under` in their names, which take a key.
#![tactic(auto)]

mod authentication;
mod fault;
mod head;
mod kind;
pub mod laws;
mod layout;
mod message;
mod notify;
mod reading;
mod register;
mod writing;

pub use authentication::{authentic, authentic_under, sign};
pub use fault::ReadFault;
pub use head::Head;
pub use kind::Kind;
pub use layout::{MessageLayout, message_layout};
pub use message::Message;
pub use notify::{MapNotify, write_notify, write_notify_under};
pub use reading::read_message;
pub use register::{MapRegister, write_register, write_register_under};
