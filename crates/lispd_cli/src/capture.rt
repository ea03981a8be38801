//! A capture is read, and told.

ghost use Rattle.std.specs.Prelude.{◌≡◌, ◌≤◌, ◌++◌, false, codes, vec_len, IfOk, IfErr, OnOk};
ghost use Rattle.std.specs.Io.KnownBytes.{Appends};
ghost use Rattle.std.specs.Option.{IfSome};
ghost use Rattle.lisp_transcript.specs.declared.writing.WriteFault.TheVariants.{Write};
ghost use Rattle.lispd_cli.specs.Capture.{most_bytes, front_text, takes_input_twice, IsMisused, IsUntold, IsWanted, PrintsLines, PrintsSchedule};

use crate::check::{Checked, read_checked};
use crate::command_line::{CONFIG, FILE};
use crate::failure::Failure;
use crate::fault::{ProgramFault, ReadingFault};
use crate::source::PATH_OF_INPUT;
use crate::words::{is_given, word};
use clap::ArgMatches;
use lisp_files::{Problem, STANDARD_INPUT};
use lisp_memory::Memory;
use lisp_policy::Sites;
use lisp_script::PlayFault;
use lisp_sites::Config;
use lisp_transcript::{Schedule, Transcript, WriteFault, write_lines, write_schedule};
use std::alloc::{Allocator, Global};
use std::fs::{self, Files};
use std::io::{self, ErrorKind, Read, Write};

/// The most bytes of a capture, which is in memory as a whole.
const MOST_BYTES: usize = 1_073_741_824;

/// Prints what the words of `read` want of a capture: a line for each message, by the secrets of the configuration, or by none; or a
/// schedule for it. At a fault of the words, the configuration or the capture nothing is printed. Faults: those of the words, 98; of the
/// configuration, as `check_config` has them, but for 25; then of the capture 93 where it can't be opened, 87 where it can't be read, 89
/// where it has more than 1,073,741,824 bytes, 143 and 144 where it is none; 88 where a line can't be written. 97 is out of memory.
pub(crate) fn read_capture<R: Input + Files + AllocGlobal, W: Write>(
    rt: &R,
    words: &ArgMatches<'_>,
    writer: &mut W,
) -> Result<(), Failure> {
    let path = word(words, FILE);
    match wanted_by(words)? {
        Wanted::Lines(None) => read_bare(rt, path, writer),
        Wanted::Lines(Some(config)) => read_with(rt, path, config, false, writer),
        Wanted::Schedule(config) => read_with(rt, path, config, true, writer),
    }
}

// Prints a line for each message, by no secrets.
fn read_bare<R: Input + Files + AllocGlobal, W: Write>(
    rt: &R,
    path: &str,
    writer: &mut W,
) -> Result<(), Failure> {
    let bytes = read_file(rt, path)?;
    Ok(print_lines(rt.alloc(), &Sites::new(rt.alloc()), &bytes, writer)?)
}

// Prints a line for each message, or a schedule, by a configuration.
fn read_with<R: Input + Files + AllocGlobal, W: Write>(
    rt: &R,
    path: &str,
    config: &str,
    as_schedule: bool,
    writer: &mut W,
) -> Result<(), Failure> {
    let checked = read_checked(rt, config)?;
    let bytes = read_file(rt, path)?;
    Ok(print_by(rt.alloc(), &checked, &bytes, as_schedule, writer)?)
}

fn print_by<W: Write>(
    alloc: Global,
    checked: &Checked,
    bytes: &[u8],
    as_schedule: bool,
    writer: &mut W,
) -> Result<(), ReadingFault> {
    let config = checked.config();
    if as_schedule {
        print_schedule(alloc, checked.text(), config, bytes, writer)
    } else {
        print_lines(alloc, config.sites(), bytes, writer)
    }
}

// The bytes of a file, or of standard input.
fn read_file<R: Input + Files + AllocGlobal>(rt: &R, path: &str) -> Result<Vec<u8>, Failure> {
    let alloc = rt.alloc();
    if path == PATH_OF_INPUT {
        return read_bytes(alloc, STANDARD_INPUT, rt.reader());
    }
    match fs::open(rt, path) {
        Ok(file) => read_bytes(alloc, path, file),
        Err(error) => {
            let fault = ProgramFault::File;
            Err(Failure::of_file(alloc, fault, path, Problem::Open(error)))
        }
    }
}

// All bytes that the reader of a path has left.
fn read_bytes<R: Read + Drop>(alloc: Global, path: &str, reader: R) -> Result<Vec<u8>, Failure>
    ensures whole { IfOk result (λ bytes. IfSome (R.remaining reader) (λ all. bytes.items ≡ all)) }
    ensures bound { IfOk result (λ bytes. vec_len bytes ≤ most_bytes) }
{
    let mut bytes = Vec::new(alloc);
    match reader.take(MOST_BYTES as u64 + 1).read_to_end(&mut bytes) {
        Ok(_) if bytes.len() > MOST_BYTES => Err(Failure::from(ReadingFault::TooLong)),
        Ok(_) => Ok(bytes),
        Err(error) => Err(unread(alloc, path, error)),
    }
}

// A capture that can't be read; fault 87, or 97 where memory ran out.
fn unread(alloc: Global, path: &str, error: io::Error) -> Failure {
    if error.kind() == ErrorKind::OutOfMemory {
        return Failure::from(PlayFault::OutOfMemory);
    }
    let fault = ProgramFault::Play(PlayFault::Read);
    Failure::of_file(alloc, fault, path, Problem::Read(error))
}

/// What is wanted of a capture.
#[derive(Clone, Copy)]
enum Wanted<'a> {
    /// A line for each of its messages, by the secrets of a configuration, where one is named.
    Lines(Option<&'a str>),
    /// A schedule for a configuration.
    Schedule(&'a str),
}

// What the words of `read` want. Faults: `NoConfig` where a schedule is wanted without a configuration, `InputTwice` where standard input
// is to be both files.
fn wanted_by<'a>(words: &ArgMatches<'a>) -> Result<Wanted<'a>, ReadingFault>
    ensures wanted { IfOk result (IsWanted words.now) }
    ensures once { OnOk result (takes_input_twice words.now ≡ false) }
    ensures fault { IfErr result (IsMisused words.now) }
{
    if takes_input_twice(words) {
        return Err(ReadingFault::InputTwice);
    }
    let config = words.get_str(CONFIG);
    if !is_given(words, "schedule") {
        return Ok(Wanted::Lines(config));
    }
    match config {
        Some(config) => Ok(Wanted::Schedule(config)),
        None => Err(ReadingFault::NoConfig),
    }
}

// Whether both files are to be standard input.
fn takes_input_twice(words: &ArgMatches<'_>) -> bool
    ensures { result ≡ takes_input_twice words.now }
{
    word(words, FILE) == PATH_OF_INPUT && word(words, CONFIG) == PATH_OF_INPUT
}

// Prints a line for each message of the capture that a file's bytes are, by the secrets of sites. Faults: `Capture`, at which nothing is
// printed, and `Output`.
fn print_lines<A: Memory + Copy, B: Allocator, W: Write>(
    alloc: A,
    sites: &Sites<B>,
    bytes: &[u8],
    writer: &mut W,
) -> Result<(), ReadingFault>
    ensures lines { OnOk result
        (PrintsLines W.contents writer.old writer.new sites.now bytes.now) }
    ensures fault { IfErr result (IsUntold A.may_refuse bytes.now writer.old writer.new) }
{
    let mut transcript = Transcript::open(alloc, bytes).map_err(ReadingFault::Capture)?;
    write_lines(alloc, sites, &mut transcript, writer).map_err(ReadingFault::Output)
}

// Prints the capture that a file's bytes are as a schedule for a configuration: its text, a line `---`, and the script. Faults as those of
// `print_lines`.
#[tactic(auto, using(crate::proofs::Warned::appends_both))]
fn print_schedule<A: Memory + Copy, B: Allocator, W: Write>(
    alloc: A,
    text: &str,
    config: &Config<B>,
    bytes: &[u8],
    writer: &mut W,
) -> Result<(), ReadingFault>
    ensures schedule { OnOk result
        (PrintsSchedule W.contents writer.old writer.new text.now config.now bytes.now) }
    ensures fault { IfErr result (IsUntold A.may_refuse bytes.now writer.old writer.new) }
{
    let mut schedule = Schedule::open(alloc, bytes).map_err(ReadingFault::Capture)?;
    print_front(text, writer).map_err(ReadingFault::Output)?;
    write_schedule(alloc, config, &mut schedule, writer).map_err(ReadingFault::Output)
}

// Prints what stands before the script of a schedule: a configuration, and a line `---`.
fn print_front<W: Write>(text: &str, writer: &mut W) -> Result<(), WriteFault>
    ensures front { OnOk result
        (Appends (W.contents writer.old) (W.contents writer.new) (front_text text.now)) }
    ensures fault { IfErr result (λ fault. fault ≡ Write) }
{
    write!(writer, "{text}\n---\n").map_err(|_| WriteFault::Write)
}
