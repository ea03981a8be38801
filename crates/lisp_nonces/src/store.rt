//! What a store of nonces promises to routers and servers.

ghost use Rattle.std.specs.Prelude.{◌≡◌, ◌≢◌, Err, IfErr, OnOk, IsErrOf};
ghost use Rattle.lisp_nonces.specs.Store.{StoreState, Rose, Proceeds, MayLoad, MaySave, MayFailSave};
ghost use Rattle.lisp_nonces.specs.declared.fault.StoreFault.{StoreFault};
ghost use Rattle.lisp_nonces.specs.Promises.{LoadsIfHonest, KeepsListsIfHonest, KeepsOthersIfHonest, SavesIfHonest, DoubtsIfHonest, KeepsTooIfObedient, IsOfDevice, LoadFailsAsArmed, SameObedience, ShowsFateIfObedient, QuietIfObedient, NarrowsIfHonest, PicksIfObedient, KeepsSomeIfHonest};

use crate::fate::Fate;
use crate::fault::StoreFault;
use crate::pair::Pair;

/// Where the last nonce of each pair is kept, across any crash. After a save that was not answered
/// done it is open whether its value is kept: a load answers one of the values that may be, and a
/// restart leaves one of them. What is said of values is said of honest stores.
pub trait NonceStore {
    ghost seen: { Self → StoreState };

    /// Whether the store may run out of memory.
    ghost may_refuse: { Type 0 };

    /// The nonce that is kept for the pair, `None` for nothing. `Device` or `Damaged` where the device
    /// failed, `OutOfMemory`, which changes nothing and comes only where the store may run out of memory.
    fn load(&mut self, pair: &Pair) -> Result<Option<u64>, StoreFault>
        // The answer is a value that may be kept.
        ensures member { LoadsIfHonest (seen self.old) pair.now result }

        // Loading changes no list.
        ensures same { KeepsListsIfHonest (seen self.old) (seen self.new) }

        // An obedient store fails where it is armed to.
        ensures loads { OnOk result (MayLoad (seen self.old)) }
        ensures load_fails { IfErr result (LoadFailsAsArmed (seen self.old)) }
        ensures cause { IfErr result (IsOfDevice (seen self.old) (seen self.new)) }
        ensures refused { IsErrOf result StoreFault.OutOfMemory → seen self.new ≡ seen self.old }
        ensures memory { IsErrOf result StoreFault.OutOfMemory → may_refuse }
        ensures proceeds { Proceeds (seen self.old) (seen self.new) };

    /// Keeps the nonce for the pair. `Device` where the device failed: it is open then whether it is
    /// kept. `OutOfMemory` changes nothing, and comes only where the store may run out of memory.
    fn save(&mut self, pair: &Pair, nonce: u64) -> Result<(), StoreFault>
        // Done: this value alone is kept.
        ensures done { SavesIfHonest (seen self.old) (seen self.new) pair.now nonce result }

        // Not done: what was kept may be, and perhaps this value.
        ensures doubt { DoubtsIfHonest (seen self.old) (seen self.new) pair.now nonce result }
        ensures others { KeepsOthersIfHonest (seen self.old) (seen self.new) pair.now }

        // An obedient store fails where it is armed to, and keeps this value too then.
        ensures saves { OnOk result (MaySave (seen self.old)) }
        ensures save_fails { IsErrOf result StoreFault.Device → MayFailSave (seen self.old) }
        ensures doubted { KeepsTooIfObedient (seen self.old) (seen self.new) pair.now nonce result }
        ensures sound { result ≢ Err StoreFault.Damaged }
        ensures cause { IsErrOf result StoreFault.Device → Rose (seen self.old) (seen self.new) }
        ensures refused { IsErrOf result StoreFault.OutOfMemory → seen self.new ≡ seen self.old }
        ensures memory { IsErrOf result StoreFault.OutOfMemory → may_refuse }
        ensures proceeds { Proceeds (seen self.old) (seen self.new) };
}

/// A store of a world, whose calls can be made to fail, and which can be restarted.
pub trait WorldStore: NonceStore {
    /// What is to become of the calls from now on.
    fn arm(&mut self, fate: Fate)
        ensures kept { (Self.seen self.new).kept ≡ (Self.seen self.old).kept }
        ensures count { (Self.seen self.new).faults ≡ (Self.seen self.old).faults }
        ensures honest { (Self.seen self.new).is_honest ≡ (Self.seen self.old).is_honest }
        ensures obedient { SameObedience (Self.seen self.old) (Self.seen self.new) }
        ensures fate { ShowsFateIfObedient (Self.seen self.old) (Self.seen self.new) fate }

        // Armed with `Done`, an obedient store fails no more.
        ensures quiet { QuietIfObedient (Self.seen self.old) (Self.seen self.new) fate };

    /// The store after a crash: of the values that may be kept for a pair some are left, by `pick`, and
    /// none is added.
    fn restart(&mut self, pick: u64)
        ensures narrows { NarrowsIfHonest (Self.seen self.old) (Self.seen self.new) }

        // Of an obedient store the one at place `pick` is left, or the last.
        ensures picks { PicksIfObedient (Self.seen self.old) (Self.seen self.new) pick }
        ensures proceeds { Proceeds (Self.seen self.old) (Self.seen self.new) };

    /// The store after what it kept was lost, as when a disk is replaced: of each pair anything may be kept
    /// then, or nothing.
    fn lose(&mut self)
        ensures some { KeepsSomeIfHonest (Self.seen self.new) }
        ensures proceeds { Proceeds (Self.seen self.old) (Self.seen self.new) };
}
