//! Tests of what neither a clause nor a stored run of `tests` shows: the vectors of HMAC (`hmac`), what worked bytes say
//! (`records`, `messages`, `requests`), readers and writers that fail (`playing`), stores that fail (`stores`), what a client is
//! told (`client`), and a Map-Server that takes turns (`turns`). This crate has no function of its own.
//!
//! # Decisions
//!
//! - The tests are one crate, since each crate of tests costs up to a minute of a processor whatever it has. A long test is
//!   slow to prove, so a test is rows of data, over which one small function loops.
#![tactic(auto)]

#[cfg(test)]
mod client;
#[cfg(test)]
mod hmac;
#[cfg(test)]
mod messages;
#[cfg(test)]
mod playing;
#[cfg(test)]
mod records;
#[cfg(test)]
mod requests;
#[cfg(test)]
mod stores;
#[cfg(test)]
mod streams;
#[cfg(test)]
mod support;
#[cfg(test)]
mod turns;
#[cfg(test)]
mod worked;
