//! The UDP datagrams of a capture: files of pcap (draft-ietf-opsawg-pcap) and pcapng (draft-ietf-opsawg-pcapng), read from
//! bytes, with the Ethernet, Linux cooked, IPv4, IPv6 and UDP headers of their packets.
//!
//! # Decisions
//!
//! - A capture is read lazily, from left to right, and each byte at most a few times. Only the interfaces of a pcapng section
//!   are kept, so that reading a packet takes no memory.
//! - Checksums aren't looked at: network cards fill them in after the capture.
//! - IP fragments aren't put together. Each is one `Unread::Fragment`.
//! - A packet of which less was captured than sent is read where the whole datagram is there.
//! - At most 2 VLAN tags (IEEE 802.1ad) and 8 extension headers (RFC 8200 section 4.1 has at most 5 that are passed over).
#![tactic(auto)]

mod block;
mod capture;
mod datagram;
mod fault;
mod frame;
mod header;
mod interface;
mod internet;
mod moment;
mod numbers;
mod packet;
mod record;

pub use capture::Capture;
pub use datagram::{Datagram, Unread};
pub use fault::CaptureFault;
pub use packet::Packet;
