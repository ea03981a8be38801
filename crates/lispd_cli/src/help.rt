//! What the program takes, and its help.

/// What the program does.
pub(crate) const ABOUT: &str =
    "Map-Server and site router (ETR) of LISP (RFC 9301); with no words, `answer`";

/// The last argument of the program and of each subcommand, as a line of the table.
pub(crate) const IN_WORDS: &str =
    "[--words]  Tell a fault in words too where standard error is no terminal";

/// The subcommands, in the order of the help, with two empty lines between them: the name, two spaces and what it does; a line for each
/// argument; an empty line, and what stands below its help. A line of an argument is how a usage has it, two spaces, and what its help
/// says, which is left out where the table says it before: `NAME` is a word, `[NAME]` one that may be left out, `[NAME]..` any number of
/// words, `--name LETTERS` an option with a value, `[--name LETTERS]` one that may be left out, and `[--name]` a switch.
pub(crate) const TABLE: &str =
    "answer  Answer one Map-Register, given as a line of hexadecimal digits on standard input, as a fresh Map-Server with one site would: \
the Map-Notify in digits, `accepted` where none is wanted, or `refused` with a number
[--site H]  Site-ID: 16 hexadecimal digits, such as 0000000000000001 (the default)
[--key N]  Key ID: a decimal number from 0 to 255, such as 1 (the default)
[--secret H]  Secret of that key: 1 to 256 bytes in hexadecimal digits, such as 736563726574 (the default)
[--prefix P]  EID-Prefix that routers may register: four numbers with dots, such as 10.1.0.0/16 (the default), or eight groups with \
colons and no `::`, such as 2001:db8:0:0:0:0:0:0/32
[--more-specifics]  Allow EID-Prefixes inside that prefix too (more-specifics)

Example:
  lispd answer --key 2 --secret 6e6577 --prefix 10.1.0.0/16 --more-specifics < map-register.hex


play  Play a schedule over a network of Map-Servers and routers in memory, and print what each event comes to, a line for each
FILE  The schedule; `-` for standard input

The file is a configuration in TOML, a line `---`, and a script with a command on each line:
  change ROUTER RECORD ..        the router's database is these records, or `empty`
  send ROUTER SERVER [part PART] the router sends a Map-Register of that part of its database, of part 0 where none is named
  deliver NUMBER                 the datagram arrives, perhaps once more
  junk NODE ADDRESS HEX          bytes from outside arrive at the node
  tick MS                        time passes
  restart NODE PICK [RECORD ..]  the node crashes and starts; its store keeps value PICK of those in doubt
  rotate ROUTER KEY              the router goes over to another key of its site
  lose ROUTER KEY [RECORD ..]    its store loses what it kept; it crashes and starts under a key that it never used
  notice SERVER ROUTER           the Map-Server sends an unsolicited Map-Notify
  resend SERVER ROUTER           and sends it again
  reload SERVER --- SITES        the Map-Server takes other sites, a line of TOML: site = [{ id = .., key = [..], prefix = [..] }]
  hold SERVER, acks ROUTER, ask SERVER ADDRESS, due NODE
                                 what the node holds, counted, answers, has to send
  request SERVER PREFIX [from ADDRESS]
                                 what the Map-Server would send for a Map-Request (of an ITR with that address)
`send` and `notice` may end in `doubt`, `deliver` and `notice` in `doubt` or `loadfails`, `rotate` in `loadfails`: the node's
store fails.

Example:
  lispd play examples/schedules/01-exchange.schedule


draw  Play a schedule, as `play` does, and draw what happens at each node and under way: as an image (SVG), or as text for a terminal
FILE
[--text]  As lines of text, of at most 100 characters of ASCII

The title is the first line of the file that begins with `#`. Each node that something happens to has a line, and time runs
down. An arrow is a datagram, from where it was sent to where it arrives; one that arrives again has an arrow again; a stub never
arrives. A dot is an event, a cross a refusal, a ring around either a store that was armed to fail; where a line is broken the node
started again. A bar at the left is a command that the network doesn't take. Of a long answer nine lines are shown. Above 600
commands there are no words but the line of each as its tip.

As text the first eight such nodes have a line: `o` is an event, `X` a refusal, `?` beside it a store that was armed to fail, `=` a
start, `#` a question, and `x` the end of a datagram that never arrives.

Examples:
  lispd draw examples/schedules/02-replay.schedule > picture.svg
  lispd draw --text examples/schedules/02-replay.schedule


server  Run a Map-Server of a configuration at its address, UDP port 4342, and print what each datagram comes to, a line for each; it \
answers Map-Requests where its entry there has `resolve`
CONFIG  The configuration, TOML
NAME  The node's name there
--store DIR  The folder of the nonces, made if it isn't there; each node has a folder of its name in it
[--database]  Keep the nonces of each node in a SQLite database there, nonces.db, which takes over those in files; left out, they are \
in files
[--group N]  How many datagrams that wait it takes in a turn at most, whose nonces are saved with one sync, from 1 (the default) to \
64; only with --database
[--quiet SECONDS]  For how long after its start it sends no negative Map-Reply, since its routers may not have registered again yet, \
from 0 to 3600; left out, 60
[--budget BYTES]  How many bytes a second it sends for Map-Requests to each destination at most, from 1024 to 262144; left out, 4096. \
A Map-Reply of more is never sent
[--turns N]  How many turns it takes, each of which waits at most 100 ms for a datagram, from 0 to 4294967295; left out, it runs until \
it is killed
[--known]  Don't start where the store keeps no nonces; not with --turns
[--json]  Print each line as a JSON object, with the time and a severity; not with --turns
[--control DIR]  The folder of the socket at which the node is asked and told, which has to be there: who may write it may do so; left \
out, the node's own folder

Nonces are saved before their messages are answered, so it may be killed at any time (SIGINT and SIGTERM end it at once).

With --quiet 0 it tells an ITR that nobody is there from the first second on, also of what its routers have yet to register again.

Examples:
  lispd server examples/configuration.toml s1 --store nonces --database --group 64
  lispd server examples/configuration.toml s1 --store nonces --quiet 120


router  Run a site router (ETR) of a configuration at its address, UDP port 4342: it sends Map-Registers when they are due, answers \
Map-Requests where its entry there has `resolve`, and prints a line for each event
CONFIG
NAME
--store DIR
[--database]
[--budget BYTES]
[--turns N]
[--known]
[--json]
[--control DIR]

Nonces are saved before their messages are sent or answered, so a node may be killed at any time (SIGINT and SIGTERM end it at once).

Example:
  lispd router examples/configuration.toml r1 --store nonces --turns 10


loop  Play a script over a network of a configuration whose datagrams go over UDP, and whose nodes keep their nonces in files, or in \
databases
CONFIG
FILE  The script
--store DIR
[--database]

The script is as in `lispd play --help`, in a file of its own. `deliver NUMBER` takes the next datagram that comes to where that \
datagram was sent, and prints `lost NUMBER` where it is another or none comes in a second.


ask  Ask a Map-Server or router that runs, and print its answer
FOLDER  The folder of the node's nonces, DIR/NAME
[WORD]..  The words, without the node's name
[--prometheus]  Print what `counts` tells in the text format of Prometheus
[--json]  Print each line as a JSON object

A Map-Server is asked:
  hold          which rows it holds
  ask ADDRESS   who answers for the address
  routers       which routers it heard since its start, and when
  due           to which router it has a notice to send again
a router:
  records       which records it registers
  acks          what it counted of each Map-Server
  disallowed RECORD ..
                which of these records its site doesn't allow: a Map-Server refuses each Map-Register with one of them (55)
  due           to which Map-Server it has a Map-Register to send
and both:
  counts        how many lines of each kind it printed since its start; its rows, sites and notices, or its records; its Map-Requests

Example:
  lispd ask nonces/s1 hold


tell  Tell a Map-Server or router that runs what to do, and print what it comes to
FOLDER
[WORD]..
[--force]  Send `change` also where the router's site doesn't allow a record
[--strict]  Don't send `reload` where the configuration has a warning

A Map-Server is told:
  notice ROUTER       to send the router an unsolicited Map-Notify of what it holds of it
  reload CONFIG       to take the sites of the file from now on, without a restart
and a router:
  change RECORD ..    to register these records from now on, or `empty`; the configuration stays as it is
  rotate KEY          to go over to another key of its site; the configuration stays as it is
and both, with --database:
  backup FILE         to copy its database, and the log, to FILE and FILE-wal in its folder, where no file of these names may be

The status is 3 where it doesn't do so; its answer says why. Where the router's site doesn't allow a record of `change`, a
Map-Server would refuse the whole Map-Register: each such record is a warning on standard error, and the router isn't told,
but with --force.

`reload` checks the file as `lispd check` does, its warnings on standard error, and tells nothing at a fault of it. It prints what it
would do, then the Map-Server's answer: `kept`, all rows, where the sites have all that those before had; else `restarted`, with no rows,
each of which is printed before, as `leaves ..`; the routers register again. Where the file has other nodes than the Map-Server runs
with, nothing is told (142). A router isn't told: restart it. Its nonces are kept, and so are its rows at its Map-Servers.

Examples:
  lispd tell nonces/s1 notice r1
  lispd tell nonces/s1 reload lispd.toml --strict


look  Ask a Map-Server who answers for an address or an EID-Prefix, by a Map-Request as an ITR sends it, and print the Map-Reply
EID  The address, or the EID-Prefix
--server ADDRESS  The Map-Server, at UDP port 4342
[--from ADDRESS]  The ITR-RLOC to which the Map-Reply goes, an address of this machine; left out, that from which the Map-Server is reached
[--tries N]  How often it asks at most, a second each time, from 1 to 100; left out, 3

It prints from whom the Map-Reply comes, and after how many milliseconds: the Map-Server, or a router to which it forwards. Then a
line for each record: `record` with its locators, or `negative` with what an ITR does with packets. The Map-Server has to reply to the
ITR-RLOC.

The status is 0 where the longest record that covers what was asked for has locators, 4 where it has none, and 1 where no Map-Reply comes.

Example:
  lispd look 10.1.2.3 --server 192.0.2.1


forget  Print which nonces a Map-Server that doesn't run keeps of routers, a line for each, or which of those of a list it keeps \
still, whose routers weren't heard since; with --remove, remove these
NAME  The Map-Server's name, that of its folder
[LIST]  A file that it printed before
--store DIR  The folder of the nonces, in which the Map-Server has a folder of its name
[--database]  The nonces are in a SQLite database there, nonces.db
[--remove]  Remove those of LIST that are still kept

Each line is `kept SITE XTR key K nonce N`, and `forgotten ..` of a nonce that was removed, once that is synced. Each Map-Register
that is accepted raises the nonce: one that is the same in a list from a month ago, and now, is of a router that wasn't heard under
that key for a month. Cross out what is to stay, or put `#` before it; blank lines are skipped, and any other line is fault 141.

A Map-Server that forgot a nonce accepts each Map-Register of that router under that key that was sent before once more, as long as
its configuration has the key. So remove those alone whose key is gone, or that nobody could have captured.

The Map-Server has to be stopped. No configuration is read. Nonces that a router sent, and those of notices, are never removed.

Example:
  lispd forget s1 --store nonces > june.txt
  lispd forget s1 --store nonces june.txt > unheard.txt
  lispd forget s1 --store nonces --remove unheard.txt


raise  Raise by N each nonce that a stopped Map-Server or router keeps, so that an old copy of its store can be put back
NAME  The node's name, that of its folder
N  By how much, from 1 to 4294967295
--store DIR  The folder of the nonces, in which the node has a folder of its name
[--database]  The nonces are in a SQLite database there, nonces.db

A Map-Server that lost its disk gets an old copy of its folder. N has to be at least as much as any nonce can have risen since the
copy was made: that of a router by 86400 a day for each part and Map-Server where it sends one a second, and by its nonce_block at each
start. Then no Map-Register that was accepted since is accepted again, if the copy has a nonce of its router and key: a router or a key
that came later needs a new key.

A router whose nonces didn't rise by so much is refused (57). Raise its store by the same N, or give it a new key. A nonce is raised to
the greatest one at most, 2^64 - 1, or 2^63 - 1 of a router's own; then its key has no more.

When all are saved it prints `raised KIND SITE XTR key K nonce N` for each. If it doesn't come to that, put the copy back once more, and
raise it again. The node has to be stopped. No configuration is read.

Example:
  lispd raise s1 604800 --store nonces


check-store  Read all that a Map-Server or a router keeps, which doesn't run, and print each nonce and each file that is damaged
NAME  The node's name, that of its folder
--store DIR  The folder of the nonces, in which the node has a folder of its name
[--database]  The nonces are in a SQLite database there, nonces.db

It prints `found KIND SITE XTR key K nonce N` for each nonce, `damaged FILE WHY` for each file of which no nonce can be read, and
`store NAME nonces N damaged M`. WHY is `content` where the file has other bytes than a nonce, `no-file` of a folder, a link and the
like, `denied` where it may not be read, and `unread` where the disk doesn't give it. Where a file is damaged the status is 1 (93).

With --database it reads the database and its log whole, in memory, and files beside it that the node takes over at its start. A
database that is damaged is fault 93, and nothing is printed.

Nothing is changed there. The node has to be stopped. No configuration is read.

Example:
  lispd check-store s1 --store nonces


check  Read a configuration, and print what was understood: a line for each site, Map-Server and router, then its warnings
CONFIG  The configuration, TOML; `-` for standard input
[--strict]  End with status 2 where a warning is printed
[--against FOLDER]  Print also what `lispd tell FOLDER reload CONFIG` would do to the Map-Server that runs over that folder, which \
changes nothing there

A line `warning: ..` says what may not be meant, as an unknown key, a short secret or a record that no Map-Server takes. At a fault \
nothing is printed, and standard error names its entry, with its line and its value; then further faults, at most 20. A table that no \
configuration has is fault 25.

With --against it asks the Map-Server that runs over the folder what `lispd tell FOLDER reload CONFIG` would do, which has to have the
same nodes (142): `compared NAME sites N kept`, or `restarted` where its rows would leave; `comes SITE` and `goes SITE` for each site
that is new, or is no more there; and `leaves ..` for each row that would leave.

Example:
  lispd check lispd.toml --against nonces/s1


read  Explain a capture: a line for each LISP control message in it, with whether its tag checks under the secrets of CONFIG; or, with \
--schedule, a schedule for `play` in which the nodes of CONFIG get them again
FILE  The capture, of pcap or pcapng; `-` for standard input
[CONFIG]  The configuration whose secrets are tried, TOML; left out, no tag is known
[--schedule]  Print it as a schedule for CONFIG

The capture is of pcap or pcapng, of Ethernet, IP alone or Linux cooked capture, and has at most 1,073,741,824 bytes. Each packet of UDP
to or from port 4342 is a line: its number, its seconds since the first packet, from whom to whom, and the message:
  map-register site SITE xtr XTR key K nonce N [proxy] [use-ttl] [want-notify] tag .. records N RECORD ..
  map-notify key K nonce N tag .. records N RECORD ..
  map-notify-ack key K nonce N tag .. records N RECORD ..
  map-request, map-reply, encapsulated
                 of which no more is told
  can't be read: read N at byte B
                 `lispd explain N` says why; with ` record P fault F` in front of `at`, record P is at fault, and F says why
A packet that is cut, damaged or a fragment says so. One of another kind of link, or with more than two VLAN tags, has no line.

The tag, by the secret of a Map-Register's site with its Key ID; of the other two, which name no site, by those of all sites:
  tag checks     it is that of the message; `tag checks site SITE` of the other two
  tag fails      it isn't; of the other two it is that of no site, perhaps as none has the Key ID
  tag unknown    CONFIG has no such site, or no such key of it; of the other two, it has no site

As a schedule each datagram to a node's address is a command `junk` after the time that passed, and any other a comment. Routers of a
schedule send nothing by themselves, so they refuse what acknowledges the captured messages. The schedule has the secrets of CONFIG. `play`
takes at most 1,048,576 bytes.

Examples:
  tcpdump -i any -w lisp.pcap udp port 4342
  lispd read lisp.pcap lispd.toml
  lispd read lisp.pcap lispd.toml --schedule | lispd play -


explain  Explain the numbers of a line that a node printed, or one number: what each means, and what to do about it; all numbers, \
where none is given
[N]..  The number, such as 57, or the line that has it, whole or from its number on

The line may be whole, also with what a log puts in front of it, or begin with its number. A fault that it carries is explained
too, as 30 in the examples. What is no such line is fault 98.

Examples:
  lispd explain 57
  lispd explain 56 store 30
  lispd explain refused s1 59 store 30 StorageFull from 192.0.2.11
  lispd explain 'Nov 29 03:23:24 host lispd[812]: lispd: fault 93'";

/// What the help says of an argument, by how a usage has it: what the table says first.
pub(crate) fn help_of(usage: &str) -> &'static str {
    for line in TABLE.split('\n') {
        match line.split_once("  ") {
            Some((other, help)) if other == usage => return help,
            _ => {}
        }
    }
    ""
}
