//! Reading the entries of an array, one after the other.

ghost use Rattle.std.specs.Prelude.{◌≡◌, IfErr};
ghost use Rattle.lisp_sites.specs.Answers.{GivesOneMore, GivesEach, GivesTables};
ghost use Rattle.lisp_sites.specs.declared.fault.ConfigFault.TheVariants.{OutOfMemory};

use crate::field::Field;
use crate::place::PlacedFault;
use crate::value::tables;
use toml::Value;

/// A list of entries that is read from an array.
pub(crate) trait Entries {
    ghost use Rattle.std.specs.Prelude.{List, Result};
    ghost use Rattle.toml.specs.Data.{Data};
    ghost use Rattle.lisp_sites.specs.declared.place.PlacedFault.{PlacedFault};

    type Entry;
    /// What is known when they are read.
    type Given;

    ghost entries: { Self → List Self.Entry };

    /// Whether the memory that reading asks for may be refused.
    ghost may_refuse: { Type 0 };

    ghost read: { Self.Given → List Self.Entry → Data → Result Self.Entry PlacedFault };

    /// Reads one more entry, behind those before it.
    fn read_next(&mut self, given: &Self::Given, entry: &Value) -> Result<(), PlacedFault>
        ensures gives { GivesOneMore entries self.old self.new result (read given.now) entry.now }
        ensures memory { IfErr result (λ f. f.fault ≡ OutOfMemory → may_refuse) };
}

/// Reads the entries of an array behind those of `list`.
pub(crate) fn read_each<L: Entries + Drop>(
    mut list: L,
    given: &L::Given,
    array: Field,
    values: &[Value],
) -> Result<L, PlacedFault>
    ensures gives { GivesEach L.entries result array (L.read given.now) list values.now }
    ensures memory { IfErr result (λ f. f.fault ≡ OutOfMemory → L.may_refuse) }
{
    for (index, value) in values.iter().enumerate() {
        match list.read_next(given, value) {
            Ok(()) => {}
            Err(fault) => return Err(fault.within(array, index + 1)),
        }
    }
    Ok(list)
}

/// Reads the entries of an array of tables, none where it is absent, behind those of `list`.
pub(crate) fn read_tables<L: Entries + Drop>(
    list: L,
    given: &L::Given,
    array: Field,
    entry: &Value,
    key: &str,
) -> Result<L, PlacedFault>
    ensures gives { GivesTables L.entries result array key.now (L.read given.now) list entry.now }
    ensures memory { IfErr result (λ f. f.fault ≡ OutOfMemory → L.may_refuse) }
{
    read_each(list, given, array, tables(entry, key, array)?)
}
