//! Why bytes are not a message, and why a node doesn't answer one.

use crate::row::{HEADER, Row, Section, rows};

/// Why bytes are not a message.
pub(crate) const MESSAGE_FAULTS: Section = Section {
    title: "Why bytes are not a message",
    introduction: "F of `read F`: the first fault from left to right (RFC 9301 sections 5.6 and 5.7; [PROTOCOL](PROTOCOL.md) has our
profile). Of `read 15 record I fault R`, R has a section of its own.",
    header: HEADER,
    rows: rows! {
        1 "Short":
            "the bytes end before the message does",
            "find out what cuts datagrams on the way, or take the whole of one from a capture";
        9 "OutOfMemory":
            "out of memory while reading; the program prints 58 or 48 in its place",
            "give the process more memory";
        10 "Kind":
            "a type other than 3, 4 and 5",
            "check what sends to this port; Map-Requests (types 1 and 8) are taken only with `resolve`";
        11 "Algorithm":
            "an Algorithm ID other than 2",
            "set HMAC-SHA-256-128-None at the sender";
        12 "AuthLength":
            "an Authentication Data Length other than 16",
            "set HMAC-SHA-256-128-None at the sender";
        13 "NoIds":
            "a Map-Register with bit I clear",
            "let the router send its xTR-ID and Site-ID";
        14 "Trailing":
            "there are bytes after the message",
            "check what sends to this port";
        15 "Record" carried "record I fault R":
            "record I (from 0) can't be read, for the reason R",
            "`lispd explain R` says what to do";
    },
};

/// Why bytes are not a record.
pub(crate) const RECORD_FAULTS: Section = Section {
    title: "Why bytes are not a record",
    introduction: "R of `record I fault R`: the first fault of the record from left to right (RFC 9301 section 5.4).",
    header: HEADER,
    rows: rows! {
        1 "Short":
            "the bytes end before the record does",
            "find out what cuts datagrams on the way, or take the whole of one from a capture";
        2 "Afi":
            "an address family other than 1 and 2",
            "register IPv4 and IPv6 prefixes and locators alone";
        3 "Mask":
            "a mask longer than its address",
            "correct the prefix at the sender";
        9 "OutOfMemory":
            "out of memory while reading; the program prints 58 or 48 in its place",
            "give the process more memory";
    },
};

/// Why bytes are not a Map-Request, a Map-Reply or an encapsulated message.
pub(crate) const REQUEST_FAULTS: Section = Section {
    title: "Why bytes are not a Map-Request, a Map-Reply or an encapsulated message",
    introduction: "The first fault from left to right (RFC 9301 sections 5.2, 5.4, 5.5 and 5.8; [PROTOCOL](PROTOCOL.md) has the layouts, and
which fault comes where). A node that takes Map-Requests (`resolve`) prints `refused NAME N` for those of a Map-Request and of what
stands around it, without `--turns`. `lispd look` takes no notice of what is no Map-Reply.",
    header: HEADER,
    rows: rows! {
        9 "OutOfMemory":
            "out of memory for the ITR-RLOCs or the records",
            "give the process more memory";
        110 "Short":
            "the bytes end before the message, or its IP or UDP header, does",
            "find out what cuts datagrams on the way, or take the whole of one from a capture";
        111 "Kind":
            "a type other than 1 for a Map-Request, 2 for a Map-Reply, or 8 for an encapsulated message",
            "check what sends to this port";
        112 "Security":
            "an encapsulated message with S set: an authentication header of LISP-SEC is before the IP header",
            "turn LISP-SEC off at the sender";
        113 "IpVersion":
            "the encapsulated datagram is of an IP version other than 4 and 6",
            "let the sender encapsulate UDP over IPv4 or IPv6";
        114 "IpHeaderLength":
            "the IHL of the IPv4 header is below 5",
            "correct the sender, or find out what changes datagrams on the way";
        115 "IpLength":
            "the total length (IPv4) or the payload length (IPv6) is of more bytes than there are; or a total length is below that of its header",
            "correct the sender, or find out what cuts or changes datagrams on the way";
        116 "Fragment":
            "the IPv4 datagram is a fragment: MF is set, or the offset is not 0",
            "let the sender encapsulate whole datagrams: fewer records in a Map-Request, or a greater MTU where it is fragmented";
        117 "Protocol":
            "the protocol, or for IPv6 the next header, is not UDP (17)",
            "let the sender encapsulate UDP directly over IPv4 or IPv6, without extension headers";
        118 "IpChecksum":
            "the IPv4 header doesn't sum to all ones",
            "correct the sender, or find out what changes datagrams on the way";
        119 "Port":
            "the destination port of the encapsulated datagram is not 4342",
            "check what sends to this port";
        120 "UdpLength":
            "the UDP length is below 8, or of more bytes than there are",
            "correct the sender, or find out what cuts or changes datagrams on the way";
        121 "UdpChecksum":
            "the UDP datagram doesn't sum to all ones; or its checksum is 0 over IPv6",
            "correct the sender, or find out what changes datagrams on the way";
        122 "NoRecord":
            "a Map-Request with a Record Count of 0",
            "correct the Map-Request at its sender";
        123 "Afi":
            "an address family other than 1 and 2, and for a Source EID other than 0",
            "correct the message at its sender: IPv4 and IPv6 addresses alone";
        124 "Mask":
            "a mask longer than its address",
            "correct the prefix at the sender";
        125 "Trailing":
            "there are bytes after the records of a Map-Reply",
            "let the sender end the Map-Reply with its records";
    },
};

/// Why a node takes nothing of a Map-Request, or holds back what it would send for one.
pub(crate) const RESOLVE_REFUSALS: Section = Section {
    title: "Why a Map-Request isn't answered",
    introduction: "The first reason from top to bottom, where the bytes are a Map-Request (RFC 9301 sections 5.3, 8.2 and 8.3). `lispd server` and
`lispd router` take Map-Requests where their entry in the configuration has `resolve`; without `--turns` they print
`refused NAME N`. A Map-Server without `resolve` refuses one with 50, such a router with 43.",
    header: HEADER,
    rows: rows! {
        126 "Solicited":
            "a Solicit-Map-Request (S), which asks the receiver to send a Map-Request itself",
            "nothing: neither a Map-Server nor a router serves it";
        127 "Probed":
            "a probe (P) at a Map-Server: a router alone answers it",
            "send the probe to the locator's router";
        128 "Unwanted":
            "the Map-Request wants no Map-Reply (D)",
            "nothing: that is what its sender asked for";
        129 "NoItrRloc":
            "no ITR-RLOC is of the address family of the node's own address",
            "let the ITR name an ITR-RLOC of that family, or run a node at an address of the other one";
        130 "Unlisted":
            "the first ITR-RLOC of the node's address family is in no prefix of its `resolve`",
            "add the ITR's prefix to `resolve`, or find out who asks";
        135 "OverBudget":
            "a datagram for the Map-Request is held back: with it more bytes than allowed would go out in a second, to its destination (4,096, or what `--budget` says) or to all (262,144)",
            "find out who asks that often, and for which ITR-RLOC: an ITR asks again by itself";
    },
};
