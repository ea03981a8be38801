//! The configuration of a network: its sites, Map-Servers and routers.

ghost use Rattle.std.specs.Prelude.{◌≡◌, IfErr};
ghost use Rattle.toml.specs.Parse.{parse_document};
ghost use Rattle.toml.specs.View.{view};
ghost use Rattle.lisp_policy.specs.Configuration.{IsConfig};
ghost use Rattle.lisp_sites.specs.Table.{Gives, GivesAt, unplaced, document_of, configuration_of, placed_config_of, config_of, placed_sites_in, sites_in};
ghost use Rattle.lisp_sites.specs.declared.fault.ConfigFault.TheVariants.{OutOfMemory};

use crate::fault::ConfigFault;
use crate::place::{Place, PlacedFault};
use crate::router::{Network, RouterEntry, read_routers};
use crate::server::{ServerEntry, read_servers};
use crate::site_entries::read_sites;
use lisp_memory::Memory;
use lisp_policy::Sites;
use std::alloc::{Allocator, Global};
use std::marker::Model;
use toml::Value;

/// What a configuration file says: the sites, the Map-Servers and the site routers.
///
/// - No two sites have the same Site-ID; within a site no two keys have the same Key ID, and no two
///   prefixes are alike. A secret has 1 to 256 bytes.
/// - No two nodes, Map-Servers or routers, have the same name.
/// - A router is of a site that is there, and uses one of its keys. It registers with Map-Servers that
///   are there, with none of them twice. Its records make a database.
#[derive(Drop)]
pub struct Config<A: Allocator = Global> {
    sites: Sites<A>,
    servers: Vec<ServerEntry<A>, A>,
    routers: Vec<RouterEntry<A>, A>,
}

impl<A: Allocator> Model for Config<A> {
    ghost use Rattle.lisp_policy.specs.Configuration.{ConfigValue, IsConfig};

    ghost Value = { ConfigValue };

    ghost view = { λ c. record { sites = c.sites; servers = c.servers.items; routers = c.routers.items } };

    ghost invariant = { λ c. IsConfig (record { sites = c.sites; servers = c.servers.items; routers = c.routers.items }) };
}

impl<A: Allocator> Config<A> {
    /// The sites, in the order of the file.
    pub fn sites(&self) -> &Sites<A>
        ensures { result.now ≡ self.now.sites }
    {
        &self.sites
    }

    /// The Map-Servers, in the order of the file.
    pub fn servers(&self) -> &[ServerEntry<A>]
        ensures { result.now ≡ self.now.servers }
    {
        &self.servers
    }

    /// The site routers, in the order of the file; each names Map-Servers by their places there.
    pub fn routers(&self) -> &[RouterEntry<A>]
        ensures routers { result.now ≡ self.now.routers }

        // What the type promises of every configuration.
        ensures configuration { IsConfig self.now }
    {
        &self.routers
    }
}

impl<A: Memory + Copy> Config<A> {
    /// Reads a configuration file, TOML, into memory of `alloc`; `heap` serves the reading of TOML
    /// alone. The first fault found is the answer: `Toml` if the text is not valid TOML; then sites,
    /// Map-Servers and routers, each entry field by field in the order of [`Field`](crate::Field):
    /// `Missing` for an absent field without a default, `BadValue` for a value of another type or
    /// form, out of its range, or naming what isn't there, `Repeated` where no two may be alike. So
    /// what is read keeps what [`Config`] promises.
    pub fn from_toml(heap: Global, alloc: A, text: &str) -> Result<Config<A>, ConfigFault>
        ensures { Gives (λ c. c) result (config_of (parse_document text.now)) }
    {
        match Config::read(heap, alloc, text) {
            Ok(config) => Ok(config),
            Err(placed) => Err(placed.fault),
        }
    }

    /// Reads a configuration file as [`from_toml`](Config::from_toml) does; a fault comes with its
    /// place in the file: the entry that it is in.
    #[tactic(auto, using(crate::proofs::Told::without_place))]
    pub fn read(heap: Global, alloc: A, text: &str) -> Result<Config<A>, PlacedFault>
        ensures config { Gives (λ c. c) (unplaced result) (config_of (parse_document text.now)) }
        ensures placed { GivesAt (λ c. c) result (placed_config_of (parse_document text.now)) }
    {
        let document = read_document(heap, text)?;
        read_configuration(alloc, &document)
    }
}

/// Reads the sites of a configuration file, TOML, into memory of `alloc`, as [`Config::from_toml`] does, and nothing else of it;
/// `heap` serves the reading of TOML alone. Faults: as there, but those of Map-Servers and routers.
pub fn sites_from_toml<A: Memory + Copy>(
    heap: Global,
    alloc: A,
    text: &str,
) -> Result<Sites<A>, ConfigFault>
    ensures { Gives (λ sites. sites) result (sites_in (parse_document text.now)) }
{
    match placed_sites(heap, alloc, text) {
        Ok(sites) => Ok(sites),
        Err(placed) => Err(placed.fault),
    }
}

// The sites of a text; a fault comes with its place.
#[tactic(auto, using(crate::proofs::Told::without_place))]
fn placed_sites<A: Memory + Copy>(
    heap: Global,
    alloc: A,
    text: &str,
) -> Result<Sites<A>, PlacedFault>
    ensures sites { Gives (λ sites. sites) (unplaced result) (sites_in (parse_document text.now)) }
    ensures placed { GivesAt (λ sites. sites) result (placed_sites_in (parse_document text.now)) }
{
    let document = read_document(heap, text)?;
    read_sites(alloc, &document)
}

// The table of a text. Nothing is said of memory here, and here alone: `toml` asks for it.
fn read_document(heap: Global, text: &str) -> Result<Value, ConfigFault>
    ensures { Gives (λ document. view document) result (document_of (parse_document text.now)) }
{
    match toml::table_from_str(heap, text) {
        Ok(table) => Ok(Value::Table(table)),
        Err(error) if error.is_memory() => Err(ConfigFault::OutOfMemory),
        Err(_) => Err(ConfigFault::Toml),
    }
}

#[tactic(auto, unfolding(crate::specs::Table::configuration_of))]
fn read_configuration<A: Memory + Copy>(
    alloc: A,
    document: &Value,
) -> Result<Config<A>, PlacedFault>
    ensures gives { GivesAt (λ c. c) result (configuration_of (view document.now)) }
    ensures memory { IfErr result (λ f. f.fault ≡ OutOfMemory → A.may_refuse) }
{
    let sites = read_sites(alloc, document)?;
    let servers = read_servers(alloc, document)?;
    let network = Network {
        alloc,
        sites,
        servers,
    };
    let routers = read_routers(&network, document)?;
    Ok(Config {
        sites: network.sites,
        servers: network.servers.into_vec(),
        routers: routers.into_vec(),
    })
}
