//! The faults of configurations, networks, scripts and sockets, of the program, and of the library.

use crate::row::{HEADER, Row, STATUS_HEADER, Section, rows};

/// What is wrong in a configuration.
pub(crate) const CONFIGURATION_FAULTS: Section = Section {
    title: "Faults of a configuration",
    introduction: "What is wrong in the configuration of `lispd play`, or in the file CONFIG: the first fault. [CONFIGURATION](CONFIGURATION.md)
has the fields and the order of the checks. Where a fault is printed in words, the field is named too; `lispd check` has its line, its
entry and the value, and up to 20 further faults after it. 25 is of `lispd check` alone.",
    header: STATUS_HEADER,
    rows: rows! {
        20 "Toml" status "2":
            "the text is not valid TOML",
            "correct its syntax";
        21 "Missing" status "2":
            "a field is absent, and has no default",
            "give it";
        22 "BadValue" status "2":
            "a value is of another type or form, is out of its range, names what isn't there, or (`router.records`) can't be a database",
            "see the field's form in CONFIGURATION.md";
        23 "Repeated" status "2":
            "two entries are alike where no two may be",
            "give each a value of its own";
        24 "OutOfMemory" status "1":
            "out of memory while reading the configuration",
            "give the process more memory";
        25 "Warnings" status "2":
            "a configuration has a table that nothing reads; or it has warnings, and `--strict` was given",
            "see the lines before it";
    },
};

/// Why records are not a database.
pub(crate) const DATABASE_FAULTS: Section = Section {
    title: "Faults of a database",
    introduction: "Why a list of records can't be what a router registers, checked in this order: more than 1,024 records (5), two of one prefix
(4), more than 16 parts (5). A configuration reports each as 22 at `router.records`, and a script as 84.",
    header: HEADER,
    rows: rows! {
        4 "RepeatedPrefix":
            "two records are of the same EID-Prefix",
            "keep one of them";
        5 "TooLarge":
            "more than 1,024 records, or more than 16 parts, of at most 255 records and 16,384 bytes each",
            "register fewer, or with fewer locators";
    },
};

/// What keeps a network from being made, or from taking an event.
pub(crate) const NETWORK_FAULTS: Section = Section {
    title: "Faults of a network",
    introduction: "What keeps a network from being made (74, 75, 76) ends the program. What keeps it from taking an event, found in this order
up to 73, then 75, is the line `fault N` of `lispd play` and `lispd loop`, which go on. 70 and 71 are for NAME of `lispd server`
and `lispd router`, and for callers of the libraries: the names in a script are checked before.",
    header: STATUS_HEADER,
    rows: rows! {
        70 "NoNode" status "2":
            "no node has the number, or the name NAME",
            "name a node of the configuration";
        71 "WrongKind" status "2":
            "a router where a Map-Server is meant, or the other way round; or a database for a Map-Server",
            "name a node of the other kind, or run the other program";
        78 "UnknownKey" status "none: it goes on":
            "the router's site has no such key",
            "name a key of its site, or give the site the key";
        77 "KeyUsed" status "none: it goes on":
            "the router went over to the key, or was started under it, even where the start failed: ever, for `lose`; before its last `lose`, for `rotate`",
            "name a key of its site that the router never used, or give the site one: old messages under a used key could be taken for new";
        72 "NoDatagram" status "none: it goes on":
            "no datagram has the number",
            "name one that was sent";
        73 "Clock" status "none: it goes on":
            "the moment would be above 2^62 ms",
            "let less time pass";
        74 "Repeated" status "2":
            "two nodes have one address, or two routers one identity",
            "give each its own";
        75 "OutOfMemory" status "1 where no network is made, else none":
            "out of memory; nothing was changed",
            "give the process more memory";
        76 "Start" status "1":
            "a router doesn't start, for 35 or 36; on a terminal its number and the reason are printed",
            "`lispd explain 35` and `lispd explain 36` say what to do";
    },
};

/// What is wrong in a script.
pub(crate) const SCRIPT_FAULTS: Section = Section {
    title: "Faults of a script",
    introduction: "`lispd: fault N line L`: the first faulty line, by its number L, from 1 on; in `lispd play` L counts from behind the line
`---`. In a line the first word is looked at first, then the number of words, then the words from left to right. Nothing is
printed on standard output.",
    header: STATUS_HEADER,
    rows: rows! {
        80 "Word" carried "line L" status "2":
            "no command begins with the first word; or another fate than the command takes",
            "see `lispd play --help`";
        81 "Count" carried "line L" status "2":
            "the command takes more words, or fewer",
            "see `lispd play --help`";
        82 "Name" carried "line L" status "2":
            "no node has the name, or it is of the wrong kind; or records for a Map-Server",
            "name a node of the configuration";
        83 "Number" carried "line L" status "2":
            "no decimal number of 1 to 20 digits, of at most 2^64 - 1; or of at most 255, for a Key ID",
            "give one";
        84 "Record" carried "line L" status "2":
            "no records of a database, no EID-Prefix, no address, or no sites",
            "write records as `10.1.0.0/16=1440+192.0.2.1`, of different prefixes, or `empty`";
        85 "Hex" carried "line L" status "2":
            "neither hexadecimal digits, two for each byte, nor `-`",
            "give either";
        86 "Memory" carried "line L" status "1":
            "out of memory",
            "give the process more memory";
    },
};

/// What a socket refuses.
pub(crate) const SOCKET_FAULTS: Section = Section {
    title: "Refusals of a socket",
    introduction: "What a socket refuses in `lispd server`, `lispd router` and `lispd loop`: `refused NAME N`, and the program goes on. A
datagram that is not sent is lost, as any may be: a Map-Register and a notice are sent again when they are due. `lispd look` ends
with `lispd: fault N`, with the status 1.",
    header: HEADER,
    rows: rows! {
        90 "":
            "a receive failed",
            "nothing, if it is rare; else check the network interface of the address";
        91 "":
            "a send failed",
            "check the route to the other node, and that its address is of the same family";
    },
};

/// What ends the program.
pub(crate) const PROGRAM_FAULTS: Section = Section {
    title: "Faults of the program",
    introduction: "`lispd: fault N`. Standard error has exactly this line, if it is not a terminal. On a terminal, with `--words`, and of `lispd
check` and `lispd tell FOLDER reload` a second line follows, in words: what is wrong and what to do; for a bad value, which option it is and what it takes.

Words that `clap` refuses (an unknown subcommand or option, or one given twice) are reported in its own text on standard
error, with status 2. Help and the version, if asked for, go to standard output, with status 0.",
    header: STATUS_HEADER,
    rows: rows! {
        87 "Read" status "1":
            "standard input or the file CONFIG, FILE or LIST can't be read, or took too many reads",
            "check the input";
        88 "Write" status "1":
            "standard output can't be written: the answer, the lines of the events, of a capture or of `lispd check-store`, those of `lispd forget` (then the last nonce that it removed isn't printed) and of `lispd raise` (then all are raised), or the help, the version or the explanation that was asked for; or the Map-Reply of `lispd look`",
            "check where the output goes";
        89 "TooLong" status "1":
            "the line of `lispd answer`, the file CONFIG, or a schedule or script FILE has more than 1,048,576 bytes; the file LIST more than 16,777,216; or a capture more than 1,073,741,824",
            "give one message on one line; a shorter configuration or script; a list or a capture in parts";
        92 "" status "1":
            "no socket can be bound at the node's address and UDP port 4342, or, of `lispd look`, at the ITR-RLOC; or the clock can't be read",
            "check that the address is one of this machine, and that no other process has the port there";
        93 "File" status "1":
            "a file or a folder can't be opened or made; another process has the node's folder, which is locked; the folder has `nonces.db`, and `--database` isn't given; with `--database`, `nonces.db` can't be opened, is no database of nonces, or has lost its log, or a file of nonces can't be taken over; with `--known`, the store keeps no nonces; of `lispd forget`, `lispd raise` and `lispd check-store`, the folder or the database isn't there, or a nonce can't be read, removed or saved; or, of `lispd check-store`, something is damaged",
            "check its name and its permissions; end the other process; give `--database` where the folder has `nonces.db`; a database or a file that is damaged is a lost store; where `lispd raise` failed at a save, put the copy back, and raise that; with `--known`, check `--store` and the name of the node";
        95 "NotUtf8" status "2":
            "the file CONFIG, FILE or LIST is not UTF-8",
            "save it as UTF-8";
        96 "NoScript" status "2":
            "no line of the schedule is `---`",
            "put one between the configuration and the script";
        97 "OutOfMemory" status "1":
            "out of memory in a call that has no number of its own for it, as for the command line, a file, or the text of a line; an event may have been taken whose line is not printed",
            "give the process more memory";
        98 "" status "2":
            "a bad value for an option (`--site`, `--key`, `--secret`, `--prefix`, `--turns`, `--group`, `--quiet`, `--budget`), `--known` or `--json` with `--turns`, `--group` without `--database`, `--json` with `--prometheus`, `--remove` without LIST, a bad N of `lispd raise`, `--schedule` without CONFIG, `-` as both FILE and CONFIG of `lispd read`, a bad value for a word of `lispd look`, a number or a line that `lispd explain` does not know, or a command line that is not UTF-8",
            "see `lispd --help`, and the help of the subcommand";
        99 "" status "1":
            "`lispd ask`, `lispd tell` or `lispd check --against`: no node runs over the folder, or it didn't answer: it couldn't save what it was to do, or ended",
            "check the folder, which is that of the node, DIR/NAME; ask the node that runs there, or see its log";
        131 "NoItrRloc" status "2":
            "`lispd look`: it isn't known to which address of this machine a Map-Reply may go: there is no route to the Map-Server",
            "name the ITR-RLOC by `--from`, or add a route";
        132 "Silent" status "1":
            "`lispd look`: no Map-Reply with the nonce came, in a second after each try",
            "check that a Map-Server runs at that address, that it replies to the ITR-RLOC, and that nothing on the way drops UDP";
        133 "Negative" status "4":
            "`lispd look`: the longest record of the Map-Reply that covers what was asked for has no locators, or no record covers it",
            "what it printed says what an ITR does; register the EID-Prefix where a mapping is expected";
        134 "NoNonce" status "1":
            "`lispd look`: the system has no random bytes for a nonce",
            "try again";
        141 "Line" carried "line L" status "2":
            "`lispd forget`: line L of the file LIST is no line `kept ..` as it prints them, nor blank, and doesn't begin with `#`; nothing was removed",
            "correct the line, or put `#` before it";
        142 "" status "3":
            "`lispd tell FOLDER reload CONFIG` or `lispd check CONFIG --against FOLDER`: the nodes of the configuration changed: the names, addresses or order of Map-Servers or routers, what a Map-Server replies to, or a router's site or xTR-ID; nothing was told",
            "restart the node: a node that runs takes other sites alone";
        143 "Unknown" status "2":
            "`lispd read`: the file is no capture: it begins neither as pcap nor as pcapng",
            "give a file that tcpdump, dumpcap or Wireshark wrote, unpacked";
        144 "Short" status "2":
            "`lispd read`: the capture, of pcap, ends in its header of 24 bytes",
            "capture again: nothing else was written";
        145 "" status "3":
            "`lispd tell FOLDER backup FILE`: the node keeps no database; FILE is no plain name, or stands in the folder already; or the copy can't be written or synced; no file FILE was made",
            "give another name, of letters, digits, `-`, `_` and `.`; copy the files of a node that keeps files; check the disk";
    },
};

/// Why the library for C programs refuses a call.
pub(crate) const LIBRARY_REFUSALS: Section = Section {
    title: "Refusals of the library for C programs",
    introduction: "What the functions of `lisp_registration.h` answer beside the numbers of the sections above: 0 is done, and nothing was
changed at any other number, but what the header says of it.",
    header: HEADER,
    rows: rows! {
        100 "Null":
            "a pointer is null where bytes or a struct are to be, or a handle holds nothing",
            "pass a pointer to them, which with a length or count of 0 may be null; start what the handle is to hold";
        101 "Length":
            "a length or a count is more than memory can have",
            "see how it was computed";
        102 "Room":
            "the buffer has no room for the message, or for the locators of a row; of a message that is written the length that it needs is given",
            "pass a buffer of that length, or of the length that the header names";
        103 "Field":
            "a field of a struct has no place in a message: a type other than 3, 4 and 5, an address family other than 1 and 2, a mask longer than its address, ACT above 7, or a Map-Version number above 4095",
            "correct the field";
        104 "Counts":
            "more than 255 records, or not as many locators as the records count",
            "pass the locators of all records, one record's after the other's";
        105 "OutOfMemory":
            "out of memory; nothing was changed",
            "give the process more memory, and call again";
        106 "NoRouter":
            "the configuration has no router of that name",
            "pass the name of a router of the configuration";
    },
};
