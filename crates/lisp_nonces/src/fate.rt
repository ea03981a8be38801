//! What is to become of a store's calls.

/// What a store in a world does from now on, until it is armed again.
#[derive(Clone, Copy, Debug, PartialEq, Eq)]
pub enum Fate {
    /// Loads and saves are done.
    Done,
    /// Each save fails as `Device`, and it is open whether the value was kept.
    Doubt,
    /// Each load fails as `Device`.
    LoadFails,
}
