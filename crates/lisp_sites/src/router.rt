//! Site routers as a configuration names them.

ghost use Rattle.std.specs.Prelude.{◌≡◌, [], IfErr, IsErrOf};
ghost use Rattle.toml.specs.View.{view, items_view};
ghost use Rattle.lisp_records.specs.Result.{Reads};
ghost use Rattle.lisp_policy.specs.Site.{has_key};
ghost use Rattle.lisp_sites.specs.Table.{Gives, GivesAt, flat, router_site, router_key, router_identity, place_of, place_at, places_of, router_flags, record_at, as_database, database_at, router_at};
ghost use Rattle.lisp_sites.specs.Answers.{GivesNode, GivesRouter, GivesRouters};
ghost use Rattle.lisp_sites.specs.declared.fault.ConfigFault.TheVariants.{OutOfMemory};

use crate::entries::{Entries, read_each, read_tables};
use crate::fault::ConfigFault;
use crate::field::Field;
use crate::keyed::Keyed;
use crate::name::Name;
use crate::nodes::{Named, Nodes};
use crate::place::PlacedFault;
use crate::resolve::read_resolve;
use crate::server::ServerEntry;
use crate::value::{array, byte, check_table, flag, name, nonce_block, text_as};
use lisp_memory::{FallibleString, FallibleVec, Memory};
use lisp_policy::{Places, Site, Sites};
use lisp_records::{Addr, Database, MapRecord, Prefix, RouterId};
use lisp_texts::record_from_text;
use std::alloc::{Allocator, Global};
use std::marker::Model;
use toml::Value;

/// A site router of the configuration.
#[derive(Debug, Drop)]
pub struct RouterEntry<A: Allocator = Global> {
    /// Its name, which no other node has.
    pub name: Name<A>,
    /// Where it receives.
    pub address: Addr,
    /// Its site and xTR-ID.
    pub me: RouterId,
    /// The key of its site that it registers under.
    pub key_id: u8,
    /// The Map-Servers that it registers with, as places in the configuration's list.
    pub servers: Places<A>,
    /// P: it asks for proxy Map-Replies.
    pub proxy: bool,
    /// T: its registrations time out by the TTL of their records.
    pub use_ttl: bool,
    /// How many nonces one save serves: 1 to 1,024.
    pub nonce_block: u16,
    /// What it registers when it starts.
    pub database: Database<A>,
    /// The prefixes of the ITR-RLOCs that it replies to (RFC 9301 section 5.5); none: it takes no Map-Request.
    pub resolve: Vec<Prefix, A>,
}

impl<A: Allocator> Model for RouterEntry<A> {
    ghost use Rattle.lisp_policy.specs.Configuration.{RouterEntryValue};

    ghost Value = { RouterEntryValue };

    ghost view = { λ r. record { name = r.name; address = r.address; me = r.me; key_id = r.key_id; servers = r.servers; proxy = r.proxy; use_ttl = r.use_ttl; nonce_block = r.nonce_block; database = r.database; resolve = r.resolve.items } };
}

impl<A: Allocator> Named for RouterEntry<A> {
    ghost name = { λ r. r.name };

    fn name(&self) -> &str {
        self.name.as_str()
    }
}

/// What routers name: sites and Map-Servers.
#[derive(Drop)]
pub(crate) struct Network<A: Allocator> {
    pub(crate) alloc: A,
    pub(crate) sites: Sites<A>,
    pub(crate) servers: Nodes<ServerEntry<A>, A>,
}

/// The routers of the document, in its order; they name sites and Map-Servers of the network.
pub(crate) fn read_routers<A: Memory + Copy>(
    network: &Network<A>,
    document: &Value,
) -> Result<Nodes<RouterEntry<A>, A>, PlacedFault>
    ensures gives { GivesRouters result network.now.sites network.now.servers document.now }
    ensures memory { IfErr result (λ f. f.fault ≡ OutOfMemory → A.may_refuse) }
{
    let routers = Nodes::new(network.alloc);
    read_tables(routers, network, Field::Router, document, "router")
}

impl<A: Memory + Copy> Entries for Nodes<RouterEntry<A>, A> {
    type Entry = RouterEntry<A>;

    type Given = Network<A>;

    ghost entries = { λ routers. routers };

    ghost may_refuse = { A.may_refuse };

    ghost read = { λ network. router_at network.sites network.servers };

    fn read_next(&mut self, network: &Network<A>, entry: &Value) -> Result<(), PlacedFault> {
        let router = read_router(network, entry, self)?;
        self.push(network.alloc, router)?;
        Ok(())
    }
}

#[tactic(auto, unfolding(crate::specs::Table::router_at))]
fn read_router<A: Memory + Copy>(
    network: &Network<A>,
    entry: &Value,
    before: &Nodes<RouterEntry<A>, A>,
) -> Result<RouterEntry<A>, PlacedFault>
    ensures gives { GivesRouter result network.now.sites network.now.servers before.now entry.now }
    ensures memory { IfErr result (λ f. f.fault ≡ OutOfMemory → A.may_refuse) }
{
    let alloc = network.alloc;
    let (name, address) = read_node(alloc, entry, &network.servers, before)?;
    let (me, key_id) = read_identity(entry, &network.sites)?;
    let servers = read_places(alloc, entry, &network.servers)?;
    let (proxy, use_ttl) = read_flags(entry)?;
    let nonce_block = nonce_block(entry, "nonce_block", Field::RouterNonceBlock)?;
    let database = read_database(alloc, entry)?;
    let resolve = read_resolve(alloc, entry, Field::RouterResolve)?;
    Ok(RouterEntry {
        name,
        address,
        me,
        key_id,
        servers,
        proxy,
        use_ttl,
        nonce_block,
        database,
        resolve,
    })
}

// Name, which no other node has, and address.
#[tactic(auto, unfolding(crate::specs::Table::router_node))]
fn read_node<A: Memory + Copy>(
    alloc: A,
    entry: &Value,
    servers: &Nodes<ServerEntry<A>, A>,
    before: &Nodes<RouterEntry<A>, A>,
) -> Result<(Name<A>, Addr), ConfigFault>
    ensures gives { GivesNode result servers.now before.now entry.now }
    ensures memory { IsErrOf result OutOfMemory → A.may_refuse }
{
    check_table(entry, Field::Router)?;
    let name = name(entry, "name", Field::RouterName)?;
    if servers.has(name) || before.has(name) {
        return Err(ConfigFault::Repeated(Field::RouterName));
    }
    let address = text_as(entry, "address", Field::RouterAddress)?;
    Ok((
        Name::from_string(String::try_from_str(alloc, name)?),
        address,
    ))
}

// Site, xTR-ID and key.
#[tactic(auto, unfolding(crate::specs::Table::router_identity))]
fn read_identity<A: Allocator>(
    entry: &Value,
    sites: &Sites<A>,
) -> Result<(RouterId, u8), ConfigFault>
    ensures value { result ≡ router_identity sites.now (view entry.now) }
    ensures plain { ¬ (IsErrOf result OutOfMemory) }
{
    let site = read_site(entry, sites)?;
    let xtr = text_as(entry, "xtr", Field::RouterXtr)?;
    let key_id = read_key(entry, site)?;
    let me = RouterId {
        site: site.id(),
        xtr,
    };
    Ok((me, key_id))
}

fn read_site<'a, A: Allocator>(
    entry: &Value,
    sites: &'a Sites<A>,
) -> Result<&'a Site<A>, ConfigFault>
    ensures reads { Reads (λ s. s.now) result (router_site sites.now (view entry.now)) }
    ensures plain { ¬ (IsErrOf result OutOfMemory) }
{
    let id = text_as(entry, "site", Field::RouterSite)?;
    sites
        .site(id)
        .ok_or(ConfigFault::BadValue(Field::RouterSite))
}

fn read_key<A: Allocator>(entry: &Value, site: &Site<A>) -> Result<u8, ConfigFault>
    ensures value { result ≡ router_key site.now (view entry.now) }
    ensures plain { ¬ (IsErrOf result OutOfMemory) }
{
    let id = byte(entry, "key", Field::RouterKey)?;
    if !has_key(site, id) {
        return Err(ConfigFault::BadValue(Field::RouterKey));
    }
    Ok(id)
}

// Whether the site has a key with the Key ID.
fn has_key<A: Allocator>(site: &Site<A>, id: u8) -> bool
    ensures { result ≡ has_key site.now.keys id }
{
    site.key(id).is_some()
}

// The places of the Map-Servers that the router names.
fn read_places<A: Memory + Copy>(
    alloc: A,
    entry: &Value,
    servers: &Nodes<ServerEntry<A>, A>,
) -> Result<Places<A>, PlacedFault>
    ensures gives { GivesAt (λ p. p) result (places_of servers.now (view entry.now)) }
    ensures memory { IfErr result (λ f. f.fault ≡ OutOfMemory → A.may_refuse) }
{
    let names = array(entry, "servers", Field::RouterServers)?;
    let places = read_each(Keyed::new(alloc), servers, Field::RouterServers, names)?;
    Ok(Places::from_vec(places.into_vec()))
}

impl<A: Memory + Copy> Entries for Keyed<usize, A> {
    type Entry = usize;

    type Given = Nodes<ServerEntry<A>, A>;

    ghost entries = { λ places. places };

    ghost may_refuse = { A.may_refuse };

    ghost read = { λ servers. flat (place_at servers) };

    fn read_next(
        &mut self,
        servers: &Nodes<ServerEntry<A>, A>,
        name: &Value,
    ) -> Result<(), PlacedFault> {
        let server = fresh_place(name, servers, self)?;
        self.push(server)?;
        Ok(())
    }
}

// The place of a Map-Server that the router hasn't named before.
fn fresh_place<A: Allocator>(
    name: &Value,
    servers: &Nodes<ServerEntry<A>, A>,
    before: &Keyed<usize, A>,
) -> Result<usize, ConfigFault>
    ensures value { result ≡ place_at servers.now before.now (view name.now) }
    ensures plain { ¬ (IsErrOf result OutOfMemory) }
{
    let server = place(name, servers)?;
    if before.has(&server) {
        return Err(ConfigFault::Repeated(Field::RouterServers));
    }
    Ok(server)
}

fn place<A: Allocator>(
    name: &Value,
    servers: &Nodes<ServerEntry<A>, A>,
) -> Result<usize, ConfigFault>
    ensures value { result ≡ place_of servers.now (view name.now) }
    ensures plain { ¬ (IsErrOf result OutOfMemory) }
{
    match name.as_str() {
        Some(name) => servers
            .place(name)
            .ok_or(ConfigFault::BadValue(Field::RouterServers)),
        None => Err(ConfigFault::BadValue(Field::RouterServers)),
    }
}

// Bits P and T.
#[tactic(auto, unfolding(crate::specs::Table::router_flags))]
fn read_flags(entry: &Value) -> Result<(bool, bool), ConfigFault>
    ensures value { result ≡ router_flags (view entry.now) }
    ensures plain { ¬ (IsErrOf result OutOfMemory) }
{
    let proxy = flag(entry, "proxy", Field::RouterProxy)?;
    let use_ttl = flag(entry, "use_ttl", Field::RouterUseTtl)?;
    Ok((proxy, use_ttl))
}

// The records.
fn read_database<A: Memory + Copy>(alloc: A, entry: &Value) -> Result<Database<A>, PlacedFault>
    ensures gives { GivesAt (λ d. d) result (database_at (view entry.now)) }
    ensures memory { IfErr result (λ f. f.fault ≡ OutOfMemory → A.may_refuse) }
{
    let records = read_tables(
        Vec::new(alloc),
        &alloc,
        Field::RouterRecords,
        entry,
        "records",
    )?;
    match Database::new(records) {
        Ok(database) => Ok(database),
        Err(_) => Err(PlacedFault::from(ConfigFault::BadValue(Field::RouterRecords))),
    }
}

impl<A: Memory + Copy> Entries for Vec<MapRecord<A>, A> {
    type Entry = MapRecord<A>;

    type Given = A;

    ghost entries = { λ records. records.items };

    ghost may_refuse = { A.may_refuse };

    ghost read = { λ _. flat record_at };

    fn read_next(&mut self, alloc: &A, text: &Value) -> Result<(), PlacedFault> {
        let record = read_record(*alloc, text)?;
        self.try_push(record)?;
        Ok(())
    }
}

fn read_record<A: Memory + Copy>(alloc: A, text: &Value) -> Result<MapRecord<A>, ConfigFault>
    ensures gives { Gives (λ r. r) result (record_at [] (view text.now)) }
    ensures memory { IsErrOf result OutOfMemory → A.may_refuse }
{
    let Some(text) = text.as_str() else {
        return Err(ConfigFault::BadValue(Field::RouterRecords));
    };
    match record_from_text(alloc, text)? {
        Some(record) => Ok(record),
        None => Err(ConfigFault::BadValue(Field::RouterRecords)),
    }
}
