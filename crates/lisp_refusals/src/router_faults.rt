//! The faults and refusals of a router.

use crate::row::{HEADER, Row, Section, rows};

/// What keeps a router from starting.
pub(crate) const START_FAULTS: Section = Section {
    title: "Faults of a router that starts",
    introduction: "They end `lispd router`, with status 1. In `lispd play` and `lispd loop` they keep a network from being made (76), and
`restart` and `lose` print them as `refused NAME N`: the router is down then, and `send` and `deliver` say so. 36 comes first.",
    header: HEADER,
    rows: rows! {
        36 "OutOfMemory":
            "out of memory; the store is unchanged",
            "give the process more memory";
        35 "Store" carried "store F":
            "the last nonce can't be loaded from the store; F is a fault of a store",
            "`lispd explain F` says what to do (F is 30, 31 or 32); then start the router again";
    },
};

/// What keeps a router from sending.
pub(crate) const SEND_FAULTS: Section = Section {
    title: "Faults of a router that sends",
    introduction: "What keeps a router from sending a Map-Register: `refused NAME N`. The first that applies is given, in this order. The
router is unchanged; `lispd router` tries again in its next turn.",
    header: HEADER,
    rows: rows! {
        40 "NoServer":
            "the router has no Map-Server with that number",
            "name a Map-Server of the router";
        49 "NoPart":
            "the database has no such part",
            "name a part of the router's present database, from 0 on";
        41 "NonceSpent":
            "the last nonce is 2^63 - 1 or more",
            "give the router a new key";
        48 "OutOfMemory":
            "out of memory to build the Map-Register",
            "give the process more memory";
        42 "Store" carried "store F":
            "the nonce can't be saved; with F 30 it may or may not have been saved; F is a fault of a store",
            "`lispd explain F` says what to do; the next send tries the same nonce again";
    },
};

/// What keeps a router from going over to another key.
pub(crate) const ROTATE_FAULTS: Section = Section {
    title: "Faults of a router that changes its key",
    introduction: "What keeps a router from going over to another key of its site: `refused NAME N`, behind `rotate`. 37 comes first. The router
is unchanged.",
    header: HEADER,
    rows: rows! {
        37 "SameKey":
            "the router has this key already",
            "nothing; or name another key of its site";
        38 "Store" carried "store F":
            "the last nonce under the new key can't be loaded from the store; F is a fault of a store",
            "`lispd explain F` says what to do; then change the key again";
    },
};

/// What a router refuses.
pub(crate) const ROUTER_REFUSALS: Section = Section {
    title: "Refusals of a router",
    introduction: "What a router refuses of what it receives: `refused NAME N`. The first that applies is given, in this order; 48 may come in
place of any answer except a fault of the first 32 bytes. The router is unchanged.",
    header: HEADER,
    rows: rows! {
        43 "Read" carried "read F":
            "the bytes are not a message; F is the first fault, of the section on messages",
            "check what sends to this port";
        44 "NotMine":
            "not a Map-Notify, or not from the address of one of the router's Map-Servers",
            "check the addresses of the Map-Servers";
        45 "WrongKey":
            "the Key ID is not the router's",
            "give both the same key; nothing, if the router's key was just changed: a late answer";
        46 "BadAuth":
            "the Authentication Data is not the tag of the message under the router's secret",
            "compare the secrets; if they agree, the message was changed on its way or is forged";
        47 "Stale" carried "latest N":
            "the nonce is below 2^63 and is not that of the last Map-Register of any part to that Map-Server; N is the greatest of their nonces, 0 if none was sent since the start, or since the key was changed",
            "nothing, if it is rare: a late answer";
        48 "OutOfMemory":
            "out of memory to read the message, or to answer a notice",
            "give the process more memory";
    },
};
