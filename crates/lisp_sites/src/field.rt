//! The names of a configuration's fields.

ghost use Rattle.std.specs.Prelude.{◌≡◌};
ghost use Rattle.lisp_sites.specs.Field.{field_name};

use std::fmt::{Display, Error, Formatter, Write};

/// A field of the configuration file, or one of its arrays of tables.
#[derive(Clone, Copy, Debug, PartialEq, Eq)]
pub enum Field {
    Site,
    SiteId,
    SiteKey,
    SiteKeyId,
    SiteKeySecret,
    SitePrefix,
    SitePrefixEid,
    SitePrefixMoreSpecifics,
    SiteRouters,
    SiteFrom,
    SiteLeastTtl,
    SiteMostTtl,
    SiteMostJump,
    SiteMostRouters,
    SiteMostRows,
    Server,
    ServerName,
    ServerAddress,
    ServerResolve,
    Router,
    RouterName,
    RouterAddress,
    RouterSite,
    RouterXtr,
    RouterKey,
    RouterServers,
    RouterProxy,
    RouterUseTtl,
    RouterNonceBlock,
    RouterRecords,
    RouterResolve,
}

impl Field {
    /// The name that an operator reads: the arrays that the field stands in and its key, joined by
    /// dots, as `site.key.secret`.
    pub const fn name(self) -> &'static str
        ensures { result.now ≡ field_name self }
    {
        match self {
            Field::Site => "site",
            Field::SiteId => "site.id",
            Field::SiteKey => "site.key",
            Field::SiteKeyId => "site.key.id",
            Field::SiteKeySecret => "site.key.secret",
            Field::SitePrefix => "site.prefix",
            Field::SitePrefixEid => "site.prefix.eid",
            Field::SitePrefixMoreSpecifics => "site.prefix.more_specifics",
            Field::SiteRouters => "site.routers",
            Field::SiteFrom => "site.from",
            Field::SiteLeastTtl => "site.least_ttl",
            Field::SiteMostTtl => "site.most_ttl",
            Field::SiteMostJump => "site.most_jump",
            Field::SiteMostRouters => "site.most_routers",
            Field::SiteMostRows => "site.most_rows",
            Field::Server => "server",
            Field::ServerName => "server.name",
            Field::ServerAddress => "server.address",
            Field::ServerResolve => "server.resolve",
            Field::Router => "router",
            Field::RouterName => "router.name",
            Field::RouterAddress => "router.address",
            Field::RouterSite => "router.site",
            Field::RouterXtr => "router.xtr",
            Field::RouterKey => "router.key",
            Field::RouterServers => "router.servers",
            Field::RouterProxy => "router.proxy",
            Field::RouterUseTtl => "router.use_ttl",
            Field::RouterNonceBlock => "router.nonce_block",
            Field::RouterRecords => "router.records",
            Field::RouterResolve => "router.resolve",
        }
    }

    /// Its key, the last part of its name.
    pub(crate) fn key(self) -> &'static str {
        let name = self.name();
        match name.rsplit_once('.') {
            Some((_, key)) => key,
            None => name,
        }
    }
}

impl Display for Field {
    fn fmt<W: Write>(&self, f: &mut Formatter<W>) -> Result<(), Error> {
        f.write_str(self.name())
    }
}
