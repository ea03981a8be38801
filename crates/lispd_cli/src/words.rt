//! The words of the command line, as `clap` matched them.

ghost use Rattle.std.specs.Prelude.{◌≡◌, ◌≢◌, ◌≤◌, true, codes, Some, None, IfOk, IfSome, OnErr};
ghost use Rattle.std.specs.Option.{option_map};
ghost use Rattle.lispd_cli.specs.Words.{word_in, is_given_in, option_in, turns_of, within, number_given, quiet_of, ReadsNode, ReadsForget, ReadsRaise};
ghost use Rattle.lisp_texts.specs.Number.{number_of};

use crate::command_line::{CONFIG, DATABASE, JSON, NAME, NUMBER, QUESTION, RELOAD, STORE, WORDS};
use crate::fault::Misuse;
use clap::ArgMatches;
use lisp_texts::number_from_text;

/// The most datagrams that are committed together.
const MOST_TOGETHER: u64 = 64;

/// For how long a Map-Server is quiet where nobody says so, and the longest that it may be, in seconds.
const QUIET_LEFT_OUT: u64 = 60;

const LONGEST_QUIET: u64 = 3_600;

/// How many bytes a second go to each destination where nobody says so, the fewest and the most: all destinations together get no more.
const BUDGET_LEFT_OUT: u64 = 4_096;

const LEAST_BUDGET: u64 = 1_024;

const MOST_BUDGET: u64 = 262_144;

/// The most by which nonces are raised at once.
const MOST_RAISED: u64 = 4_294_967_295;

/// A word that the subcommand requires.
pub fn word<'a>(words: &ArgMatches<'a>, name: &str) -> &'a str
    ensures { result.now ≡ word_in words.now name.now }
{
    match words.get_str(name) {
        Some(word) => word,
        None => "",
    }
}

/// Whether the switch was given.
pub fn is_given(words: &ArgMatches<'_>, name: &str) -> bool
    ensures { result ≡ is_given_in words.now name.now }
{
    match words.get_str(name) {
        None => false,
        Some(word) => word == "true",
    }
}

/// Whether a fault is told in words on any standard error: a fault of `check` is, and of `tell` with `reload`, which checks as well; and
/// each one where `--words` was given, before the subcommand or behind it.
pub fn tells_words(matches: &ArgMatches<'_>) -> bool {
    let is_told = match matches.subcommand() {
        Some((name, words)) => checks(name, words) || is_given(words, WORDS),
        None => false,
    };
    is_told || is_given(matches, WORDS)
}

// Whether a subcommand checks a configuration.
fn checks(name: &str, words: &ArgMatches<'_>) -> bool {
    name == "check" || (name == "tell" && tells_reload(words))
}

fn tells_reload(words: &ArgMatches<'_>) -> bool {
    matches!(words.get_strs(QUESTION), Some([first, ..]) if *first == RELOAD)
}

/// The words of `server` and `router`.
pub struct NodeWords<'a> {
    /// The file of the configuration.
    pub config: &'a str,
    /// The node's name there.
    pub name: &'a str,
    /// The folder of the nonces.
    pub dir: &'a str,
    /// How many turns it takes; `None` where it runs until it is killed.
    pub turns: Option<u32>,
    /// It doesn't start where the store keeps no nonces.
    pub is_known: bool,
    /// It prints each line as a JSON object.
    pub is_json: bool,
    /// Its nonces are in a database, not in files.
    pub has_database: bool,
    /// How many datagrams it takes in a turn at most, whose nonces are committed together; 1 where they are in files.
    pub group: u8,
    /// For how long after its start a Map-Server sends no negative Map-Reply, in ms; a router has no such time.
    pub quiet: u64,
    /// How many bytes a second it sends for Map-Requests to each destination, at most.
    pub budget: u32,
    /// The folder in which it is asked; `None` where that is its own.
    pub control: Option<&'a str>,
}

/// The words of `server` and `router`. Faults, all 98: `Misuse::Turns` where the turns have another form than they take,
/// `Misuse::Known` where `--known` comes with them, `Misuse::Json` where `--json` does, `Misuse::Group` where the
/// group has another form than it takes, `Misuse::GroupOfFiles` where `--group` comes without `--database`,
/// `Misuse::Quiet` where `--quiet` has another form than it takes, `Misuse::Budget` where `--budget` has.
pub fn node_words<'a>(words: &ArgMatches<'a>) -> Result<NodeWords<'a>, Misuse>
    ensures words { IfOk result (ReadsNode words.now) }
    ensures known { IfOk result (λ w. w.is_known ≡ true → w.turns ≡ None) }
    ensures json { IfOk result (λ w. w.is_json ≡ true → w.turns ≡ None) }
    ensures database { IfOk result (λ w. option_in words.now (codes "group") ≢ None
        → w.has_database ≡ true) }
    ensures group { IfOk result (λ w. (1 ≤ w.group) × (w.group ≤ 64)) }
    ensures quiet { IfOk result (λ w. w.quiet ≤ 3600000) }
    ensures budget { IfOk result (λ w. (1024 ≤ w.budget) × (w.budget ≤ 262144)) }
{
    let turns = turns(words)?;
    let is_known = is_given(words, "known");
    if is_known && turns.is_some() {
        return Err(Misuse::Known);
    }
    let is_json = is_given(words, JSON);
    if is_json && turns.is_some() {
        return Err(Misuse::Json);
    }
    let has_database = is_given(words, DATABASE);
    Ok(NodeWords {
        config: word(words, CONFIG),
        name: word(words, NAME),
        dir: word(words, STORE),
        turns,
        is_known,
        is_json,
        has_database,
        group: group(words, has_database)?,
        quiet: quiet(words)?,
        budget: budget(words)?,
        control: words.get_str("control"),
    })
}

/// The words of `forget`.
pub struct ForgetWords<'a> {
    /// The Map-Server's name.
    pub name: &'a str,
    /// The folder of the nonces.
    pub dir: &'a str,
    /// Its nonces are in a database, not in files.
    pub has_database: bool,
    /// The file of the list, where one is given.
    pub list: Option<&'a str>,
    /// What the list names is removed.
    pub removes: bool,
}

/// The words of `forget`. Fault: `Misuse::NoList`, 98, where `--remove` comes without a list.
pub fn forget_words<'a>(words: &ArgMatches<'a>) -> Result<ForgetWords<'a>, Misuse>
    ensures words { IfOk result (ReadsForget words.now) }
    ensures listed { IfOk result (λ w. w.removes ≡ true → w.list ≢ None) }
    ensures fault { OnErr result (option_in words.now (codes "LIST") ≡ None) }
{
    let list = words.get_str("LIST");
    let removes = is_given(words, "remove");
    if removes && list.is_none() {
        return Err(Misuse::NoList);
    }
    Ok(ForgetWords {
        name: word(words, NAME),
        dir: word(words, STORE),
        has_database: is_given(words, DATABASE),
        list,
        removes,
    })
}

/// The words of `raise`.
pub struct RaiseWords<'a> {
    /// The node's name.
    pub name: &'a str,
    /// The folder of the nonces.
    pub dir: &'a str,
    /// Its nonces are in a database, not in files.
    pub has_database: bool,
    /// By how much its nonces are raised.
    pub by: u32,
}

/// The words of `raise`. Fault: `Misuse::By`, 98, where N has another form than it takes.
pub fn raise_words<'a>(words: &ArgMatches<'a>) -> Result<RaiseWords<'a>, Misuse>
    ensures words { IfOk result (ReadsRaise words.now) }
    ensures bounds { IfOk result (λ w. 1 ≤ w.by) }
    ensures fault { OnErr result
        (within 1 4294967295 (number_of (word_in words.now (codes "N"))) ≡ None) }
{
    let Some(by) = number_within(word(words, NUMBER), 1, MOST_RAISED) else {
        return Err(Misuse::By);
    };
    Ok(RaiseWords {
        name: word(words, NAME),
        dir: word(words, STORE),
        has_database: is_given(words, DATABASE),
        by: by as u32,
    })
}

// How many turns a node takes; `None` where it runs until it is killed.
fn turns(words: &ArgMatches<'_>) -> Result<Option<u32>, Misuse>
    ensures { IfOk result (λ turns. turns_of (option_in words.now (codes "turns")) ≡ Some turns) }
{
    let Some(text) = words.get_str("turns") else {
        return Ok(None);
    };
    match number_from_text(text).map(u32::try_from) {
        Some(Ok(turns)) => Ok(Some(turns)),
        _ => Err(Misuse::Turns),
    }
}

// How many datagrams a node takes in a turn at most. Faults: `Group`, `GroupOfFiles`.
fn group(words: &ArgMatches<'_>, has_database: bool) -> Result<u8, Misuse>
    ensures number { IfOk result
        (λ group. number_given 1 1 64 (option_in words.now (codes "group")) ≡ Some group) }
    ensures database { IfOk result (λ _. option_in words.now (codes "group") ≢ None
        → has_database ≡ true) }
    ensures bounds { IfOk result (λ group. (1 ≤ group) × (group ≤ 64)) }
{
    let text = words.get_str("group");
    let Some(group) = number_given(text, 1, 1, MOST_TOGETHER) else {
        return Err(Misuse::Group);
    };
    if text.is_some() && !has_database {
        return Err(Misuse::GroupOfFiles);
    }
    Ok(group as u8)
}

// For how long after its start a Map-Server sends no negative Map-Reply, in ms. Fault: `Quiet`.
fn quiet(words: &ArgMatches<'_>) -> Result<u64, Misuse>
    ensures number { IfOk result
        (λ quiet. quiet_of (option_in words.now (codes "quiet")) ≡ Some quiet) }
    ensures bounds { IfOk result (λ quiet. quiet ≤ 3600000) }
{
    match number_given(words.get_str("quiet"), QUIET_LEFT_OUT, 0, LONGEST_QUIET) {
        Some(seconds) => Ok(seconds * 1_000),
        None => Err(Misuse::Quiet),
    }
}

// How many bytes a second a node sends for Map-Requests to each destination, at most. Fault: `Budget`.
fn budget(words: &ArgMatches<'_>) -> Result<u32, Misuse>
    ensures number { IfOk result
        (λ budget. number_given 4096 1024 262144 (option_in words.now (codes "budget"))
        ≡ Some budget) }
    ensures bounds { IfOk result (λ budget. (1024 ≤ budget) × (budget ≤ 262144)) }
{
    let text = words.get_str("budget");
    match number_given(text, BUDGET_LEFT_OUT, LEAST_BUDGET, MOST_BUDGET) {
        Some(budget) => Ok(budget as u32),
        None => Err(Misuse::Budget),
    }
}

/// The number that an option's value is, between two bounds; `None` where it has another form. Left out, the option has a number between
/// them.
pub(crate) fn number_given(text: Option<&str>, left_out: u64, least: u64, most: u64) -> Option<u64>
    requires { (least ≤ left_out) × (left_out ≤ most) }
    ensures number { result ≡ number_given left_out least most
        (option_map (λ text. text.now) text.entry) }
    ensures bounds { IfSome result (λ number. (least ≤ number) × (number ≤ most)) }
{
    match text {
        Some(text) => number_within(text, least, most),
        None => Some(left_out),
    }
}

// A decimal number between two bounds.
fn number_within(text: &str, least: u64, most: u64) -> Option<u64>
    ensures number { result ≡ within least most (number_of text.now) }
    ensures bounds { IfSome result (λ number. (least ≤ number) × (number ≤ most)) }
{
    match number_from_text(text) {
        Some(number) if least <= number && number <= most => Some(number),
        _ => None,
    }
}
