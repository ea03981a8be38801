//! What would be right where a configuration has a fault.

use lisp_script::PlayFault;
use lisp_sites::{ConfigFault, Field};

/// What an operator may do about a fault of a schedule's configuration, in words; `None` for every other fault, whose own
/// words say it.
pub const fn advice(fault: &PlayFault) -> Option<&'static str> {
    match fault {
        PlayFault::NoScript => Some("put a line --- between the configuration and the script"),
        PlayFault::Config(ConfigFault::Missing(field) | ConfigFault::BadValue(field)) => {
            Some(form(*field))
        }
        PlayFault::Config(ConfigFault::Repeated(_)) => {
            Some("no two may be alike: give each entry a value of its own")
        }
        _ => None,
    }
}

// The form of a field.
const fn form(field: Field) -> &'static str {
    match field {
        Field::Site => "sites are an array of tables: [[site]]",
        Field::SiteId | Field::RouterSite => {
            "a Site-ID is a text of 16 hexadecimal digits, and a router's is that of a site"
        }
        Field::SiteKey => "keys are an array of tables: [[site.key]]",
        Field::SiteKeyId | Field::RouterKey => {
            "a Key ID is a whole number from 0 to 255, and a router's is that of a key of its site"
        }
        Field::SiteKeySecret => "a secret is 1 to 256 bytes in hexadecimal digits",
        Field::SitePrefix => "prefixes are an array of tables: [[site.prefix]]",
        Field::SitePrefixEid =>
            "an EID-Prefix is written as 10.1.0.0/16 or 2001:db8:0:0:0:0:0:0/32",
        Field::SitePrefixMoreSpecifics | Field::RouterProxy | Field::RouterUseTtl => {
            "the value is true or false"
        }
        Field::SiteRouters => {
            "the value lists xTR-IDs, texts of 32 hexadecimal digits, at least one and none twice"
        }
        Field::SiteFrom => {
            "the value lists prefixes of source addresses, such as 192.0.2.0/24, at least one"
        }
        Field::SiteLeastTtl | Field::SiteMostTtl => {
            "the value is a whole number of minutes from 1 to 4294967294, and most_ttl is at least least_ttl"
        }
        Field::SiteMostJump => "the value is a whole number from 1 to 9223372036854775807",
        Field::SiteMostRouters | Field::SiteMostRows => {
            "the value is a whole number from 1 to 4294967295"
        }
        Field::Server => "Map-Servers are an array of tables: [[server]]",
        Field::ServerName | Field::RouterName => {
            "a name is 1 to 32 of the characters a to z, 0 to 9 and -"
        }
        Field::ServerAddress | Field::RouterAddress => {
            "an address is four numbers with dots, or eight groups with colons"
        }
        Field::ServerResolve | Field::RouterResolve => {
            "the value lists prefixes of ITR-RLOCs, such as 192.0.2.0/24"
        }
        Field::Router => "routers are an array of tables: [[router]]",
        Field::RouterXtr => "an xTR-ID is a text of 32 hexadecimal digits",
        Field::RouterServers => "the value lists names of Map-Servers, none twice",
        Field::RouterNonceBlock => "the value is a whole number from 1 to 1024",
        Field::RouterRecords => {
            "the value lists records such as 10.1.0.0/16=1440+192.0.2.1, of different prefixes, at most 1,024"
        }
    }
}
