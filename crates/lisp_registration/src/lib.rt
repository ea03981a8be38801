//! LISP registration for programs in C and in Rust, as a static library: messages, which are read where the bytes lie and
//! written into the caller's buffer, and the cores of a Map-Server and of a router behind handles. What C sees is in
//! `include/lisp_registration.h`.
//!
//! Each export does what the function of a core, of `lisp_messages` or of `lisp_requests` below it does, and says so in its
//! contract. What the caller has to keep (pointers to so much memory) no contract can say: it stands in the header.
//!
//! # Decisions
//!
//! - The library is three parts, and messages can be taken alone: they have no state, so nothing is kept for C between calls.
//! - A handle is a struct with one pointer, null where it holds nothing. So zeros are a handle, a stopped one can be stopped
//!   again, and no call returns a pointer that might be used after it was freed.
//! - C sees structs and arrays of numbers, without `bool`, enums and pointers. So whatever C leaves in a field is a value that
//!   contracts speak of, and nothing has to be freed but the handle.
//! - There is one struct for all three messages, and it is read and written. So a Map-Notify is written from its Map-Register
//!   with one number changed.
//! - Null pointers are answered by inline functions of the header, `lisp_..`, in front of the exports `lisp_registration_..`.
//!   An export takes references, which are never null: with raw pointers each clause would have to say what memory is at them.
//! - Reading takes no memory: it gives places in the caller's bytes, and C walks from one to the next. Writing takes some,
//!   since a writer for a fixed buffer would be all of `lisp_messages` a second time.
//! - Layouts are stated by the reading functions (`record_at`, `message_at`), so that they can't differ from what `lispd`
//!   reads.
//! - A record's fault comes from `lisp_read_record` and is no second result of `lisp_read_message`: who wants to know it walks
//!   the records.
//! - Rows are given one by one over the table itself, which takes no memory and no second handle. Their order is the table's,
//!   so a program walks them at once.
//! - A secret comes with each call on messages: a key made ready would need a handle. That costs two blocks of SHA-256 a call.
#![tactic(auto)]

mod address;
mod fault;
mod held;
mod items;
pub mod laws;
mod message;
mod notices;
mod pair;
mod reading;
mod record;
mod requests;
mod resolving;
mod room;
mod router;
mod router_handle;
mod server;
mod starting;
mod writing;

pub use address::{PlainAddress, PlainPrefix};
pub use fault::{HandleFault, NodeFault, WriteFault};
pub use held::{
    PlainAnswer, PlainRow, lisp_registration_server_answer, lisp_registration_server_row,
};
pub use message::{PlainMessage, lisp_registration_authentic, lisp_registration_sign};
pub use notices::{
    PlainNotice, lisp_registration_server_due, lisp_registration_server_expire,
    lisp_registration_server_notify, lisp_registration_server_resend,
};
pub use pair::{PlainNonce, PlainPair, PlainRouter};
pub use reading::{
    lisp_registration_read_eid, lisp_registration_read_encapsulated,
    lisp_registration_read_itr_rloc, lisp_registration_read_locator,
    lisp_registration_read_message, lisp_registration_read_record, lisp_registration_read_reply,
    lisp_registration_read_request,
};
pub use record::{PlainLocator, PlainRecord};
pub use requests::{PlainEncapsulated, PlainReply, PlainRequest};
pub use resolving::{PlainReplied, lisp_registration_router_reply, lisp_registration_server_reply};
pub use router::{
    PlainDue, PlainSeen, PlainSent, lisp_registration_router_due, lisp_registration_router_receive,
    lisp_registration_router_send,
};
pub use router_handle::{
    lisp_registration_router_change, lisp_registration_router_pair, lisp_registration_router_start,
    lisp_registration_router_stop,
};
pub use server::{
    PlainReceived, lisp_registration_server_pair, lisp_registration_server_receive,
    lisp_registration_server_reload, lisp_registration_server_restart,
    lisp_registration_server_start, lisp_registration_server_stop,
};
pub use writing::{
    lisp_registration_write_encapsulated, lisp_registration_write_message,
    lisp_registration_write_reply, lisp_registration_write_request,
};
