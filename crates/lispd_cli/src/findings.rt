//! What is warned of.

ghost use Rattle.std.specs.Prelude.{◌≡◌, ◌∷◌, [], ◌++◌, map, string_bytes, IfOk, OnOk};
ghost use Rattle.lispd_cli.specs.Check.{AddsPlaced, AreFindings, PutsLines, of_mode, warning_line};

use crate::check::Checked;
use lisp_check::{
    Document, SecretWarning, Unknown, Warning, entry_line, key_secrets, lined, secret_line,
    secret_place, secret_warnings, warning_line, warning_place, warnings,
};
use lisp_memory::{FallibleString, FallibleVec};
use lisp_sites::Config;
use std::alloc::{AllocError, Global};

/// What is warned of, and the line of its entry, where that is known.
#[derive(Clone, Copy)]
pub(crate) struct Finding<'a> {
    line: Option<usize>,
    what: What<'a>,
}

/// What is warned of.
#[derive(Clone, Copy)]
enum What<'a> {
    /// A key that no configuration has, in words.
    Unknown(&'a str),
    /// A secret.
    Secret(SecretWarning),
    /// What may not be meant.
    Config(Warning),
    /// Others can read the file.
    Open,
}

/// What a configuration is warned of: keys that aren't known, then secrets, then what may not be meant, then that others can read its file.
pub(crate) fn findings<'a>(
    alloc: Global,
    checked: &'a Checked,
) -> Result<Vec<Finding<'a>>, AllocError>
    ensures { IfOk result (λ all. AreFindings checked.now.config checked.now.document.text
        checked.now.source.is_open_to_others all.items) }
{
    let mut all = unknown_findings(alloc, checked.unknown.as_slice())?;
    add_secrets(&mut all, alloc, &checked.document)?;
    let warnings = warnings(alloc, &checked.config)?;
    add_warnings(&mut all, checked, &warnings)?;
    add_mode(&mut all, checked.source.is_open_to_others)?;
    Ok(all)
}

fn unknown_findings<'a>(
    alloc: Global,
    unknown: &'a [Unknown],
) -> Result<Vec<Finding<'a>>, AllocError> {
    let mut all = Vec::new(alloc);
    for key in unknown {
        if !key.is_table {
            let what = What::Unknown(key.words.as_str());
            all.try_push(Finding {
                line: key.line,
                what,
            })?;
        }
    }
    Ok(all)
}

fn add_secrets(
    all: &mut Vec<Finding<'_>>,
    alloc: Global,
    document: &Document,
) -> Result<(), AllocError> {
    let secrets = key_secrets(alloc, document)?;
    for warning in secret_warnings(alloc, &secrets)? {
        let line = entry_line(document, secret_place(warning));
        let what = What::Secret(warning);
        all.try_push(Finding { line, what })?;
    }
    Ok(())
}

// Adds these warnings, each with its line.
fn add_warnings(
    all: &mut Vec<Finding<'_>>,
    checked: &Checked,
    warnings: &[Warning],
) -> Result<(), AllocError>
    ensures { AddsPlaced result checked.now.document.text all.old.items all.new.items warnings.now }
{
    let mut rest = warnings;
    while let [warning, others @ ..] = rest {
        let line = entry_line(&checked.document, warning_place(&checked.config, *warning));
        let what = What::Config(*warning);
        all.try_push(Finding { line, what })?;
        rest = others;
    }
    Ok(())
}

// Adds that others can read the file.
fn add_mode(all: &mut Vec<Finding<'_>>, is_open: bool) -> Result<(), AllocError>
    ensures { OnOk result (all.new.items ≡ all.old.items ++ of_mode is_open) }
{
    if is_open {
        let (line, what) = (None, What::Open);
        all.try_push(Finding { line, what })?;
    }
    Ok(())
}

/// Adds a line for each warning of a file.
pub(crate) fn put_findings(
    text: &mut String,
    alloc: Global,
    path: &str,
    config: &Config,
    findings: &[Finding<'_>],
) -> Result<(), AllocError>
    ensures { PutsLines result path.now text.old text.new findings.now }
{
    let mut rest = findings;
    while let [finding, others @ ..] = rest {
        let words = finding_words(alloc, config, finding)?;
        put_warning(text, path, words.as_str())?;
        rest = others;
    }
    Ok(())
}

fn put_warning(text: &mut String, path: &str, words: &str) -> Result<(), AllocError>
    ensures { OnOk result
        (string_bytes text.new ≡ string_bytes text.old ++ warning_line path.now words.now) }
{
    text.try_write(format_args!("warning: {path}: {words}\n"))
}

fn finding_words(
    alloc: Global,
    config: &Config,
    finding: &Finding<'_>,
) -> Result<String, AllocError> {
    let words = match finding.what {
        What::Unknown(words) => String::try_from_str(alloc, words)?,
        What::Secret(warning) => secret_line(alloc, warning)?,
        What::Config(warning) => warning_line(alloc, config, warning)?,
        What::Open => {
            String::try_from_str(alloc, "others can read the file, and it holds secrets")?
        }
    };
    lined(alloc, finding.line, words)
}
