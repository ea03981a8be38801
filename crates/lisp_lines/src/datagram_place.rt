//! Whether a line tells the place of its datagram.

/// Whether a line tells the place of its datagram among all that were sent.
#[derive(Clone, Copy, Debug, PartialEq, Eq)]
pub enum DatagramPlace {
    /// It does, by ` datagram D` at its end.
    Shown,
    /// It doesn't.
    Hidden,
}
