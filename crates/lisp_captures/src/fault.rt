//! Why bytes are no capture.

use thiserror::Error;

/// What is wrong with the first bytes of a file.
#[derive(Clone, Copy, Debug, PartialEq, Eq, Error)]
pub enum CaptureFault {
    /// They are neither those of pcap nor of pcapng.
    #[error("this is no capture: neither pcap nor pcapng")]
    Unknown,
    /// A pcap file that ends in its header of 24 bytes.
    #[error("the capture ends in its header")]
    Short,
}
