//! A client of the network's promise, which believes nothing but public contracts: how to use the theorem.
#![tactic(auto)]

mod answers;
mod asking;
mod client;
mod question;

pub use answers::Answers;
pub use asking::look;
pub use client::ask;
pub use question::Question;
