//! The refusals of a Map-Server, and the faults of its notices and of stores.

use crate::row::{HEADER, Row, Section, rows};

/// What a Map-Server refuses.
pub(crate) const SERVER_REFUSALS: Section = Section {
    title: "Refusals of a message",
    introduction: "`lispd answer` prints `refused N`; `lispd play`, `lispd server` and `lispd loop` print `refused NAME N`, with the name of the
Map-Server. It gives the first that applies, in this order:

- for any message, 50;
- for a Map-Notify, then 61;
- for a Map-Notify-Ack, then 60, 53;
- for a Map-Register, then 51, 52, 53, 69, 136, 54, 55, 137, 56, 57, 138, 58, 139, 140, 59.

Out of memory while reading is 58 too, and comes before any check. A refusal leaves rows, nonces and notices in memory
unchanged.",
    header: HEADER,
    rows: rows! {
        50 "Read" carried "read F":
            "the bytes are not a message; F is the first fault, of the section on messages",
            "check what sends to this port; for `read 1`, also whether datagrams are cut on the way";
        51 "UnknownSite":
            "no such Site-ID is configured",
            "configure the site, or correct the router's Site-ID";
        52 "UnknownKey":
            "the site has no secret for the Key ID",
            "configure the key, or correct the router's Key ID";
        53 "BadAuth":
            "the Authentication Data is not the tag of the message under that secret; for a Map-Notify-Ack, under the secret of the unsolicited Map-Notify (notice) that it is for",
            "compare the secrets; if they agree, the message was changed on its way or is forged";
        54 "MergeAsked":
            "the merge bit is set",
            "turn merging off at the router";
        55 "NotAllowed" carried "record I":
            "the prefix of record I (from 0) is not one that the site may register",
            "add the prefix to the site, or allow more-specifics there, or correct the router's database";
        56 "StoreLoad" carried "store F":
            "the last nonce of the router under that key can't be loaded from the store; F is a fault of a store",
            "`lispd explain F` says what to do; the router will register again";
        57 "Replay" carried "saved N":
            "the nonce is not above N: the last one accepted from that router under that key since the start, or the value loaded from the store if none was accepted",
            "nothing, if it is rare: a repeated or late message. If each message is refused, the router lost its nonces: give it a new key";
        58 "OutOfMemory":
            "out of memory to read the message, to hold its records or to build its answer",
            "give the process more memory; nothing was changed";
        59 "StoreSave" carried "store F":
            "the nonce can't be saved: with F 30 it may or may not have been saved, with F 32 it was not; rows and nonces in memory are unchanged",
            "`lispd explain F` says what to do; the router will register again";
        60 "NoNotice":
            "a Map-Notify-Ack that no standing notice waits for: none that went to its source address has its key and nonce",
            "nothing: a late or repeated acknowledgement";
        61 "NotMine":
            "a Map-Notify, which is for routers",
            "check what sends to this port";
        69 "Router":
            "the site lists its routers (`routers`), and this one isn't among them",
            "add the router's xTR-ID to the site's `routers`, or find out who uses the site's key";
        136 "Source":
            "the site lists source addresses (`from`), and that of the message isn't among them",
            "add the router's address to the site's `from`, or find out who uses the site's key";
        137 "Ttl" carried "record I":
            "the TTL of record I (from 0) is below `least_ttl` or above `most_ttl` of the site, and the record would live for it",
            "correct the router's database, or the bounds of the site";
        138 "Jump" carried "saved N":
            "the nonce is further above N, the last one of that router under that key, than `most_jump` of the site",
            "if the Map-Server took nothing from the router for long, raise `most_jump` until it did, or give the router a new key. Else somebody else uses its key: give the site a new one";
        139 "Routers":
            "as many routers have live rows of the site as may (`most_routers`), and this one has none",
            "find out who uses the site's key, or raise `most_routers`; routers that are gone count until their rows expire";
        140 "Rows":
            "the message brings a new row, and the site would have more live rows than it may (`most_rows`)",
            "find out who uses the site's key, or raise `most_rows`; rows of routers that are gone count until they expire";
        94 "":
            "the line of `lispd answer` is not hexadecimal text",
            "give an even number of hexadecimal digits";
    },
};

/// What keeps a Map-Server from sending a notice.
pub(crate) const NOTICE_FAULTS: Section = Section {
    title: "Faults of a notice",
    introduction: "What keeps a Map-Server from sending a router an unsolicited Map-Notify (notice). `notice` and `resend` print them in
`lispd play` and `lispd loop`, and `lispd server` where a notice is due again: `refused NAME N`. The first that applies
is given, in this order; where a notice is sent again, 67, then 66. The Map-Server is unchanged.",
    header: HEADER,
    rows: rows! {
        62 "NotRegistered":
            "no record of the router is alive",
            "wait for its next Map-Register, or find out why it doesn't register";
        63 "TooLarge":
            "its live records are more than 255, or have more than 16,384 bytes",
            "register fewer, or with fewer locators (RLOCs)";
        68 "StoreLoad" carried "store F":
            "the last nonce of the notices can't be loaded from the store; F is a fault of a store",
            "`lispd explain F` says what to do";
        64 "NonceSpent":
            "the last nonce of the notices is 2^64 - 1",
            "give the Map-Server a new store, and its routers new keys";
        66 "OutOfMemory":
            "out of memory to build the Map-Notify, to keep it, or to copy it",
            "give the process more memory";
        65 "StoreSave" carried "store F":
            "the nonce can't be saved: with F 30 it may or may not have been saved, with F 32 it was not",
            "`lispd explain F` says what to do; the next notice takes the same nonce, or the one above if the store kept it";
        67 "NotDue":
            "no notice of the router is due",
            "nothing: none stands, it was sent seven times, or its time hasn't come";
    },
};

/// Why a store gave no answer.
pub(crate) const STORE_FAULTS: Section = Section {
    title: "Faults of a store of nonces",
    introduction: "F of `store F`. The fresh Map-Server of `lispd answer` has its store in memory: it can meet only 32. In `lispd server`,
`lispd router` and `lispd loop` a store is a folder of files.",
    header: HEADER,
    rows: rows! {
        30 "Device":
            "the device failed; after a save, the nonce may or may not have been kept",
            "check the disk, the folder and its permissions, and that the file is a regular file, no link";
        31 "Damaged":
            "what was kept can't be read",
            "give the router a new key; for the nonces of notices give the Map-Server a new store, and its routers new keys. Never put back an old copy of the files as it is: raise it first (`lispd raise`)";
        32 "OutOfMemory":
            "out of memory; nothing was changed",
            "give the process more memory";
    },
};
