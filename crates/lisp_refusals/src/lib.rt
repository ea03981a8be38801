//! Every number of a refusal or a fault, in one table: what it means, when it comes, and what an operator does about it.
#![tactic(auto)]

mod document;
mod explaining;
mod fault;
mod message_faults;
mod output;
mod program_faults;
mod router_faults;
mod row;
mod server_refusals;
mod table;

pub use document::explain_all;
pub use explaining::{explain, is_known};
pub use fault::ExplainFault;
pub use table::{meaning, name, remedy};
