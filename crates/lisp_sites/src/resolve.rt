//! Lists of prefixes: of the ITR-RLOCs that a node replies to, and of the sources that a site's Map-Registers come from.

ghost use Rattle.std.specs.Prelude.{◌≡◌, [], IfErr, IsErrOf};
ghost use Rattle.toml.specs.View.{view};
ghost use Rattle.lisp_sites.specs.Table.{GivesAt, flat, listed_prefix_at, resolve_of};
ghost use Rattle.lisp_sites.specs.declared.fault.ConfigFault.TheVariants.{OutOfMemory};

use crate::entries::{Entries, read_tables};
use crate::fault::ConfigFault;
use crate::field::Field;
use crate::place::PlacedFault;
use lisp_memory::{FallibleVec, Memory};
use lisp_records::Prefix;
use lisp_texts::prefix_from_text;
use std::alloc::Allocator;
use toml::Value;

/// The prefixes of an entry's `resolve`, in its order; none where it is absent.
pub(crate) fn read_resolve<A: Memory + Copy>(
    alloc: A,
    entry: &Value,
    name: Field,
) -> Result<Vec<Prefix, A>, PlacedFault>
    ensures gives { GivesAt (λ prefixes. prefixes.items) result (resolve_of name (view entry.now)) }
    ensures memory { IfErr result (λ f. f.fault ≡ OutOfMemory → A.may_refuse) }
{
    read_tables(Vec::new(alloc), &name, name, entry, "resolve")
}

/// Prefixes, given the field that lists them.
impl<A: Memory + Copy> Entries for Vec<Prefix, A> {
    type Entry = Prefix;

    type Given = Field;

    ghost entries = { λ prefixes. prefixes.items };

    ghost may_refuse = { A.may_refuse };

    ghost read = { λ name. flat (listed_prefix_at name) };

    fn read_next(&mut self, name: &Field, text: &Value) -> Result<(), PlacedFault> {
        let prefix = read_prefix(*name, text)?;
        self.try_push(prefix)?;
        Ok(())
    }
}

fn read_prefix(name: Field, text: &Value) -> Result<Prefix, ConfigFault>
    ensures value { result ≡ listed_prefix_at name [] (view text.now) }
    ensures plain { ¬ (IsErrOf result OutOfMemory) }
{
    let Some(text) = text.as_str() else {
        return Err(ConfigFault::BadValue(name));
    };
    prefix_from_text(text).ok_or(ConfigFault::BadValue(name))
}
