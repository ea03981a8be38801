//! The secret that a prepared key stands for, as clauses see it.

ghost use Rattle.std.specs.Prelude.{◌≡◌, ℕ, List};
ghost use Rattle.std.specs.Borrow.{ftrue};

use std::marker::Model;

// A secret that only clauses read: it takes no memory, and holds none of the bytes.
#[derive(Drop)]
pub(crate) struct Secret {
    pub ghost bytes: { List ℕ },
}

impl Model for Secret {
    ghost also_owns = { λ _. ftrue };
}

impl Secret {
    pub(crate) fn of(bytes: &[u8]) -> Secret
        ensures { result.bytes ≡ bytes.now }
    {
        let _ = bytes;
        Secret {}
    }

    pub(crate) fn copy(&self) -> Secret
        ensures { result.bytes ≡ self.now.bytes }
    {
        Secret {}
    }
}
