//! Map-Servers as a configuration names them.

ghost use Rattle.std.specs.Prelude.{◌≡◌, [], IfErr, IsErrOf};
ghost use Rattle.toml.specs.View.{view, items_view};
ghost use Rattle.lisp_records.specs.Result.{Reads};
ghost use Rattle.lisp_sites.specs.Table.{GivesAt, server_at, servers_of};
ghost use Rattle.lisp_sites.specs.declared.fault.ConfigFault.TheVariants.{OutOfMemory};

use crate::entries::{Entries, read_tables};
use crate::fault::ConfigFault;
use crate::field::Field;
use crate::name::Name;
use crate::nodes::{Named, Nodes};
use crate::place::PlacedFault;
use crate::resolve::read_resolve;
use crate::value::{check_table, name, text_as};
use lisp_memory::{FallibleString, Memory};
use lisp_records::{Addr, Prefix};
use std::alloc::{Allocator, Global};
use std::marker::Model;
use toml::Value;

/// A Map-Server of the configuration.
#[derive(Debug, Drop)]
pub struct ServerEntry<A: Allocator = Global> {
    /// Its name, which no other node has.
    pub name: Name<A>,
    /// Where it receives.
    pub address: Addr,
    /// The prefixes of the ITR-RLOCs that it replies to (RFC 9301 section 8.3); none: it takes no Map-Request.
    pub resolve: Vec<Prefix, A>,
}

impl<A: Allocator> Model for ServerEntry<A> {
    ghost use Rattle.lisp_policy.specs.Configuration.{ServerEntryValue};

    ghost Value = { ServerEntryValue };

    ghost view = { λ s. record { name = s.name; address = s.address; resolve = s.resolve.items } };
}

impl<A: Allocator> Named for ServerEntry<A> {
    ghost name = { λ s. s.name };

    fn name(&self) -> &str {
        self.name.as_str()
    }
}

/// The Map-Servers of the document, in its order.
pub(crate) fn read_servers<A: Memory + Copy>(
    alloc: A,
    document: &Value,
) -> Result<Nodes<ServerEntry<A>, A>, PlacedFault>
    ensures gives { GivesAt (λ servers. servers) result (servers_of (view document.now)) }
    ensures memory { IfErr result (λ f. f.fault ≡ OutOfMemory → A.may_refuse) }
{
    let servers = Nodes::new(alloc);
    read_tables(servers, &alloc, Field::Server, document, "server")
}

impl<A: Memory + Copy> Entries for Nodes<ServerEntry<A>, A> {
    type Entry = ServerEntry<A>;

    type Given = A;

    ghost entries = { λ servers. servers };

    ghost may_refuse = { A.may_refuse };

    ghost read = { λ _. server_at };

    fn read_next(&mut self, alloc: &A, entry: &Value) -> Result<(), PlacedFault> {
        let server = read_server(*alloc, entry, self)?;
        self.push(*alloc, server)?;
        Ok(())
    }
}

#[tactic(auto, unfolding(crate::specs::Table::server_at))]
fn read_server<A: Memory + Copy>(
    alloc: A,
    entry: &Value,
    before: &Nodes<ServerEntry<A>, A>,
) -> Result<ServerEntry<A>, PlacedFault>
    ensures gives { GivesAt (λ s. s) result (server_at before.now (view entry.now)) }
    ensures memory { IfErr result (λ f. f.fault ≡ OutOfMemory → A.may_refuse) }
{
    check_table(entry, Field::Server)?;
    let name = name(entry, "name", Field::ServerName)?;
    if before.has(name) {
        return Err(PlacedFault::from(ConfigFault::Repeated(Field::ServerName)));
    }
    let address = text_as(entry, "address", Field::ServerAddress)?;
    let name = Name::from_string(String::try_from_str(alloc, name)?);
    let resolve = read_resolve(alloc, entry, Field::ServerResolve)?;
    Ok(ServerEntry {
        name,
        address,
        resolve,
    })
}
