//! The last refusal of a datagram from the address of each configured router.

ghost use Rattle.std.specs.Prelude.{◌≡◌, IfOk, OnErr};
ghost use Rattle.lisp_statistics.specs.LastRefusals.{NoneRefused, NotesRefusal, RefusesLine, last_refusal, refused_from};

use lisp_memory::{FallibleMap, Memory};
use lisp_model::Line;
use lisp_records::Addr;
use lisp_sites::RouterEntry;
use lisp_turns::Printed;
use std::alloc::{AllocError, Allocator, Global};
use std::collections::BTreeMap;

/// Which refusal was the last one of a datagram from the address of each configured router. No other address takes memory, whatever
/// comes from it.
#[derive(Drop)]
pub(crate) struct LastRefusals<A: Allocator = Global> {
    /// Its number, by the address; `None` where nothing from it was refused.
    pub(crate) by_address: BTreeMap<Addr, Option<u16>, A>,
}

impl<A: Memory + Copy> LastRefusals<A> {
    /// Nothing was refused yet from the addresses of these routers.
    pub(crate) fn start<E: Allocator>(
        alloc: A,
        routers: &[RouterEntry<E>],
    ) -> Result<LastRefusals<A>, AllocError>
        ensures none { IfOk result (λ refusals. NoneRefused routers.now refusals.by_address) }
        ensures memory { OnErr result A.may_refuse }
    {
        let mut by_address = BTreeMap::new(alloc);
        for router in routers {
            by_address.try_insert(router.address, None)?;
        }
        Ok(LastRefusals { by_address })
    }

    /// The node prints a line.
    pub(crate) fn tell(&mut self, line: &Printed)
        ensures { RefusesLine self.old.by_address self.new.by_address (refused_from line.now) }
    {
        if let Some((from, number)) = refused_from(line) {
            self.note(&from, number);
        }
    }

    // A datagram from an address was refused.
    fn note(&mut self, from: &Addr, number: u16)
        ensures { NotesRefusal self.old.by_address self.new.by_address from.now number }
    {
        if let Some(last) = self.by_address.get_mut(from) {
            *last = Some(number);
        }
    }

    /// The number of the last one from an address; `None` where there was none, or where no router has the address.
    pub(crate) fn number(&self, address: &Addr) -> Option<u16>
        ensures { result ≡ last_refusal self.now.by_address address.now }
    {
        match self.by_address.get(address) {
            Some(last) => *last,
            None => None,
        }
    }
}

// Where a datagram came from that a line says was refused, and the number of the refusal; `None` of any other line.
fn refused_from(line: &Printed) -> Option<(Addr, u16)>
    ensures { result ≡ refused_from line.now }
{
    match line {
        Printed::Heard {
            line: Line::Refused { what, .. },
            from,
        } => Some((*from, what.number())),
        _ => None,
    }
}
