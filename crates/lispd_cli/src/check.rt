//! A configuration is checked: what was understood of it is printed, then its warnings.

ghost use Rattle.std.specs.Prelude.{◌≡◌, true, false, string_bytes, IfOk, OnOk};
ghost use Rattle.std.specs.Io.KnownBytes.{Appends};
ghost use Rattle.lispd_cli.specs.Check.{HasWarnings, IsChecked, Warns, WarnsOfText};

use crate::config_text::config_text;
use crate::failure::Failure;
use crate::fault::ProgramFault;
use crate::findings::{findings, put_findings};
use crate::remedy::advice;
use crate::source::{Source, read_source};
use lisp_check::{
    Document, Unknown, fault_note, further_faults, lined, read_document, unknown_keys,
};
use lisp_memory::FallibleString;
use lisp_script::{InputFault, PlayFault};
use lisp_sites::{Config, PlacedFault};
use std::alloc::{AllocError, Global};
use std::fmt::Display;
use std::fs::Files;
use std::io::Write;

/// A configuration that was read, with its document and the keys and tables there that no configuration has.
#[derive(Drop)]
pub(crate) struct Checked {
    pub(crate) source: Source,
    pub(crate) document: Document,
    pub(crate) unknown: Vec<Unknown>,
    pub(crate) config: Config,
}

impl Checked {
    /// The text that was read.
    pub(crate) fn text(&self) -> &str
        ensures { result.now ≡ string_bytes self.now.source.text }
    {
        self.source.text.as_str()
    }

    /// The configuration that it is.
    pub(crate) fn config(&self) -> &Config
        ensures { result.now ≡ self.now.config }
    {
        &self.config
    }
}

/// Reads the configuration of a file, of standard input where the path is `-`, and prints a line for each site, Map-Server and
/// router of it, then one for each warning: of keys that aren't known and of secrets, then of what may not be meant, then that others
/// can read the file. At a fault of the configuration nothing is printed. Returns whether there are warnings. Where a table is ignored,
/// the failure is `ProgramFault::Warnings` (25), and its details name each.
pub fn check_config<R: Input + Files + AllocGlobal, W: Write>(
    rt: &R,
    path: &str,
    writer: &mut W,
) -> Result<bool, Failure>
    ensures warns { IfOk result (WarnsOfText path.now W.contents writer.old writer.new) }
{
    let checked = read_checked(rt, path)?;
    let has_warnings = print_findings(rt.alloc(), path, &checked, writer)?;
    accept(rt.alloc(), &checked, false, has_warnings)?;
    Ok(has_warnings)
}

/// Reads the configuration of a file, of standard input where the path is `-`. At a fault of the configuration the failure's details say
/// where it is, and name further faults.
pub(crate) fn read_checked<R: Input + Files + AllocGlobal>(
    rt: &R,
    path: &str,
) -> Result<Checked, Failure>
    ensures { IfOk result IsChecked }
{
    let source = read_source(rt, path)?;
    check_source(rt.alloc(), source)
}

// The configuration that a text is.
fn check_source(alloc: Global, source: Source) -> Result<Checked, Failure>
    ensures { IfOk result IsChecked }
{
    let text = source.text.as_str();
    let config = match Config::read(alloc, alloc, text) {
        Ok(config) => config,
        Err(placed) => return Err(placed_failure(alloc, text, &placed)),
    };
    let document = read_document(alloc, text).map_err(InputFault::from)?;
    let unknown = unknown_keys(alloc, &document).map_err(InputFault::from)?;
    Ok(Checked {
        source,
        document,
        unknown,
        config,
    })
}

/// Prints a line for each site, Map-Server and router of a configuration, then its warnings. Returns whether there are any.
pub(crate) fn print_findings<W: Write>(
    alloc: Global,
    path: &str,
    checked: &Checked,
    writer: &mut W,
) -> Result<bool, InputFault>
    ensures { IfOk result (Warns checked.now.config checked.now.document.text
        checked.now.source.is_open_to_others path.now W.contents writer.old writer.new) }
{
    let findings = findings(alloc, checked)?;
    let mut text = config_text(alloc, &checked.config)?;
    put_findings(&mut text, alloc, path, &checked.config, &findings)?;
    print(text.as_str(), writer)?;
    Ok(!findings.is_empty())
}

fn print<W: Write>(text: &str, writer: &mut W) -> Result<(), InputFault>
    ensures { OnOk result (Appends (W.contents writer.old) (W.contents writer.new) text.now) }
{
    let written = writer.write_all(text.as_bytes());
    written.map_err(|_| InputFault::Input(PlayFault::Write))
}

/// Prints the warnings of a configuration on standard error. Returns whether there are any.
pub(crate) fn tell_warnings<R: Eprint + AllocGlobal>(
    rt: &R,
    path: &str,
    checked: &Checked,
) -> Result<bool, InputFault>
    ensures { IfOk result (HasWarnings checked.now) }
{
    let findings = findings(rt.alloc(), checked)?;
    let mut text = String::new(rt.alloc());
    put_findings(&mut text, rt.alloc(), path, &checked.config, &findings)?;
    let _ = eprint!(rt; "{text}");
    let has_warnings = !findings.is_empty();
    Ok(has_warnings)
}

/// Whether a configuration may be used: `ProgramFault::Warnings` (25) where a table of it is ignored, with a line for each; and, where
/// that is asked for, where it has warnings.
pub(crate) fn accept(
    alloc: Global,
    checked: &Checked,
    is_strict: bool,
    has_warnings: bool,
) -> Result<(), Failure>
    ensures strict { OnOk result (is_strict ≡ true → has_warnings ≡ false) }
{
    if let Some(failure) = ignored_failure(alloc, &checked.unknown)? {
        return Err(failure);
    }
    if is_strict && has_warnings {
        return Err(Failure::from(ProgramFault::Warnings));
    }
    Ok(())
}

// The fault of a configuration that has tables which are ignored, with a line for each; `None` where it has none.
fn ignored_failure(alloc: Global, unknown: &[Unknown]) -> Result<Option<Failure>, InputFault> {
    let mut details = String::new(alloc);
    for table in unknown {
        if table.is_table {
            put_ignored(&mut details, alloc, table)?;
        }
    }
    if details.is_empty() {
        return Ok(None);
    }
    Ok(Some(Failure {
        fault: ProgramFault::Warnings,
        details: Some(details),
    }))
}

// Adds the line of a table that is ignored.
fn put_ignored(details: &mut String, alloc: Global, table: &Unknown) -> Result<(), AllocError> {
    let words = unknown_words(alloc, table)?;
    put_line(details, format_args!("{words}: nothing in it is read"))
}

// A key or a table that isn't known, after its line.
fn unknown_words(alloc: Global, unknown: &Unknown) -> Result<String, AllocError> {
    let words = String::try_from_str(alloc, unknown.words.as_str())?;
    lined(alloc, unknown.line, words)
}

// Adds a line to others.
fn put_line<D: Display + Drop>(lines: &mut String, line: D) -> Result<(), AllocError> {
    if !lines.is_empty() {
        lines.try_push('\n')?;
    }
    lines.try_write(line)
}

// A fault of a configuration, with its place there and what would be right; then the further ones.
fn placed_failure(alloc: Global, text: &str, placed: &PlacedFault) -> Failure {
    Failure {
        fault: ProgramFault::Play(PlayFault::Config(placed.fault)),
        details: fault_lines(alloc, text, placed).ok(),
    }
}

// A line for the fault and for each further one.
fn fault_lines(alloc: Global, text: &str, placed: &PlacedFault) -> Result<String, AllocError> {
    let mut lines = fault_words(alloc, text, placed)?;
    for further in further_faults(alloc, text, placed)? {
        put_line(&mut lines, fault_words(alloc, text, &further)?)?;
    }
    Ok(lines)
}

fn fault_words(alloc: Global, text: &str, placed: &PlacedFault) -> Result<String, AllocError> {
    let note = fault_note(alloc, text, placed)?;
    let mut words = note.place;
    let fault = placed.fault;
    words.try_write(fault)?;
    words.try_write(note.value)?;
    match &note.advice {
        Some(advice) => words.try_write(format_args!(": {advice}"))?,
        None => {
            if let Some(advice) = advice(&PlayFault::Config(fault)) {
                words.try_write(format_args!(": {advice}"))?;
            }
        }
    }
    Ok(words)
}
