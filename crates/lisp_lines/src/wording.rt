//! How lines are worded.

use crate::datagram_place::DatagramPlace;

/// How lines are worded: as a schedule that is played prints them, or as a node that runs does.
#[derive(Clone, Copy, Debug, PartialEq, Eq)]
pub enum Wording {
    /// With the place of the datagram, where that is `Shown`. A router that the configuration doesn't have is `other`.
    Schedule(DatagramPlace),
    /// Without the place of the datagram. Such a router is named by its Site-ID and xTR-ID, as `SITE/XTR`.
    Node,
}
