//! A datagram that is sent.

use lisp_records::Addr;
use std::alloc::{Allocator, Global};
use std::marker::Model;

/// A datagram that is sent for a Map-Request.
#[derive(Debug, Drop)]
pub struct Datagram<A: Allocator = Global> {
    /// The address that it goes to.
    pub to: Addr,
    /// The UDP port that it goes to.
    pub port: u16,
    /// What it carries.
    pub bytes: Vec<u8, A>,
}

impl<A: Allocator> Model for Datagram<A> {
    ghost use Rattle.lisp_mapping.specs.Sends.{DatagramValue};

    ghost Value = { DatagramValue };

    ghost view = { λ d. record { to = d.to; port = d.port; bytes = d.bytes.items } };
}
