//! Nodes of one kind, and their names.

ghost use Rattle.std.specs.Prelude.{◌≡◌, false, [], ◌∷◌, ◌++◌, OnOk, IfErr, position};
ghost use Rattle.std.specs.List.{list_any};
ghost use Rattle.std.specs.Str.{bytes_eq};
ghost use Rattle.lisp_sites.specs.Names.{KeepsPlaces};
ghost use Rattle.lisp_sites.specs.declared.fault.ConfigFault.TheVariants.{OutOfMemory};

use crate::fault::ConfigFault;
use lisp_memory::{FallibleMap, FallibleString, FallibleVec, Memory};
use std::alloc::Allocator;
use std::collections::BTreeMap;
use std::marker::Model;

/// What has a name.
pub(crate) trait Named {
    ghost use Rattle.std.specs.Prelude.{List, ℕ};

    ghost name: { Self → List ℕ };

    /// Its name.
    fn name(&self) -> &str
        ensures { result.now ≡ name self.now };
}

/// Nodes of one kind in the order of the file, found by their names.
#[derive(Drop)]
pub(crate) struct Nodes<N: Named, A: Allocator> {
    items: Vec<N, A>,
    // The places of their names.
    places: BTreeMap<String<A>, usize, A>,
}

impl<N: Named, A: Allocator> Model for Nodes<N, A> {
    ghost use Rattle.std.specs.Prelude.{List};
    ghost use Rattle.lisp_sites.specs.Names.{ArePlaces};

    ghost Value = { List N };

    ghost view = { λ n. n.items.items };

    ghost invariant = { λ n. ArePlaces n.places N.name n.items.items };
}

impl<N: Named, A: Memory + Copy> Nodes<N, A> {
    /// No nodes; takes no memory.
    #[tactic(auto, using(crate::proofs::Placed::none_placed))]
    pub(crate) fn new(alloc: A) -> Nodes<N, A>
        ensures { result ≡ [] }
    {
        Nodes {
            items: Vec::new(alloc),
            places: BTreeMap::new(alloc),
        }
    }

    /// Adds a node behind the others, none of which has its name.
    pub(crate) fn push(&mut self, alloc: A, node: N) -> Result<(), ConfigFault>
    where
        N: Drop,
        requires { list_any (λ n. bytes_eq (N.name n) (N.name node)) self.old ≡ false }
        ensures added { OnOk result (self.new ≡ self.old ++ node ∷ []) }
        ensures memory { IfErr result (λ fault. (fault ≡ OutOfMemory) × A.may_refuse) }
    {
        add(&mut self.items, &mut self.places, alloc, node)
    }
}

impl<N: Named, A: Allocator> Nodes<N, A> {
    /// The place of the node with a name.
    pub(crate) fn place(&self, name: &str) -> Option<usize>
        ensures { result ≡ position (λ n. bytes_eq (N.name n) name.now) self.now }
    {
        self.places.get(name).copied()
    }

    /// Whether one of them has the name.
    #[tactic(auto, using(crate::proofs::Placed::has_place))]
    pub(crate) fn has(&self, name: &str) -> bool
        ensures { result ≡ list_any (λ n. bytes_eq (N.name n) name.now) self.now }
    {
        self.place(name).is_some()
    }

    /// The nodes in their order; their names are no longer kept.
    pub(crate) fn into_vec(self) -> Vec<N, A>
        ensures { result.items ≡ self }
    {
        self.items
    }
}

// Adds a node and its place.
fn add<N: Named + Drop, A: Memory + Copy>(
    items: &mut Vec<N, A>,
    places: &mut BTreeMap<String<A>, usize, A>,
    alloc: A,
    node: N,
) -> Result<(), ConfigFault>
    ensures added { OnOk result (items.new.items ≡ items.old.items ++ node ∷ []) }
    ensures placed { KeepsPlaces N.name places.old places.new items.old items.new node }
    ensures memory { IfErr result (λ fault. (fault ≡ OutOfMemory) × A.may_refuse) }
{
    items.make_room(1)?;
    let name = String::try_from_str(alloc, node.name())?;
    places.try_insert(name, items.len())?;
    items.push_reserved(node);
    Ok(())
}
