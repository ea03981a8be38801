//! Where routers and Map-Servers keep their nonces: stores in the files of a folder (`FileStore`, `Folder`) and in memory; the nonces
//! that such files keep, to list (`read_nonces`), to forget (`forget_nonce`), and for another store to take over (`put_aside`); which files
//! are damaged (`find_files`); who wrote a store last (`Writer`); and for tests a folder in memory (`MemoryFolder`), a store of which a call
//! fails (`Failing`), and one that keeps no promise about nonces (`Liar`).
//!
//! # Decisions
//!
//! - A folder that isn't there keeps no nonces, as a file that isn't there does. So a program makes the folder when it starts,
//!   and that nobody takes it away is part of the premise.
//! - Out of memory comes only before a file is touched. Each refusal of the file system is `Device`, even where the system
//!   itself is out of memory, since it may come after something was written.
//! - A link is `Device` too, even one to a regular file. So a link that leads nowhere isn't taken for a pair without a nonce.
//! - `FileStore` and `Liar` do nothing where a network loses their store: what is left of files is the disk's affair.
//! - Who wrote last is known by the ids of the machine and of its boot. Linux counts no boots, so a warning after each boot is
//!   the price: nothing else at hand distinguishes an old copy from a new one.
#![tactic(auto)]

mod file;
mod folder;
mod found_files;
mod kept_nonce;
pub mod laws;
mod name;
mod nonce_file;
mod system_folder;
mod testing;
mod text;
mod writer;

pub use file::FileStore;
pub use folder::{Folder, FolderFault};
pub use found_files::{Damage, DamagedFile, FoundFiles, find_files};
pub use kept_nonce::KeptNonce;
pub use lisp_nonces::{
    FIRST_NOTICE_NONCE, Fate, LAST_ROUTER_NONCE, MAX_NONCE_BLOCK, MemoryStore, NonceStore, Pair,
    PairKind, StoreFault, WorldStore,
};
pub use name::{count_pairs, pair_from_name, pair_name};
pub use nonce_file::{forget_nonce, put_aside, read_nonces};
pub use system_folder::{SystemFolder, is_file_there};
pub use testing::{Failing, Liar, MemoryFolder};
pub use text::{nonce_from_text, nonce_text};
pub use writer::{Change, Writer};
