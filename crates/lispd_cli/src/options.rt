//! The options of `answer`.

ghost use Rattle.std.specs.Prelude.{◌≡◌, IsErrOf};
ghost use Rattle.std.specs.Option.{option_map};
ghost use Rattle.lisp_records.specs.Result.{Reads};
ghost use Rattle.lispd_cli.specs.Options.{Gives, option_name, option_text, site_in, key_in, secret_in, prefix_in, flag_of, ReachesSecret, setup_of};
ghost use Rattle.lispd_cli.specs.declared.fault.SetupFault.{SetupFault};

use crate::fault::SetupFault;
use crate::help::help_of;
use crate::words;
use clap::ArgMatches;
use lisp_answer::{AnswerSetup, DEFAULT_KEY, DEFAULT_SECRET, DEFAULT_SITE, default_prefix};
use lisp_memory::{FallibleCopies, Memory};
use lisp_records::{Bytes, Prefix};
use lisp_texts::{number_from_text, prefix_from_text, secret_from_text, site_id_from_text};
use std::fmt::{self, Display, Formatter, Write};

/// An option of `answer` that has a value.
#[derive(Clone, Copy, Debug)]
pub enum AnswerOption {
    /// `--site`: the Site-ID of the one site.
    Site,
    /// `--key`: the Key ID of its one key.
    Key,
    /// `--secret`: the secret of that key.
    Secret,
    /// `--prefix`: the EID-Prefix that its routers may register.
    Prefix,
}

impl AnswerOption {
    /// The option's name, without the two dashes.
    pub const fn name<'a>(self) -> &'a str
        ensures { result.now ≡ option_name self }
    {
        match self {
            AnswerOption::Site => "site",
            AnswerOption::Key => "key",
            AnswerOption::Secret => "secret",
            AnswerOption::Prefix => "prefix",
        }
    }

    // How a usage has it.
    const fn usage<'a>(self) -> &'a str {
        match self {
            AnswerOption::Site => "[--site H]",
            AnswerOption::Key => "[--key N]",
            AnswerOption::Secret => "[--secret H]",
            AnswerOption::Prefix => "[--prefix P]",
        }
    }
}

impl Display for AnswerOption {
    fn fmt<W: Write>(&self, formatter: &mut Formatter<W>) -> fmt::Result {
        let (name, help) = (self.name(), help_of(self.usage()));
        write!(formatter, "bad value for --{name}. {help}")
    }
}

/// The setup that the options ask for, in memory of `alloc`: `--site` 16 hexadecimal digits, `--key`
/// a decimal number 0 to 255, `--secret` hexadecimal text of 1 to 256 bytes, `--prefix` a prefix as
/// [`lisp_texts::prefix_from_text`] reads it, `--more-specifics`. What is absent has its default, and all
/// has where there are no `matches`. `BadOption` names the first of these options whose value has another
/// form; `OutOfMemory` where memory runs out for the secret.
#[tactic(auto, unfolding(crate::specs::Options::setup_of))]
pub fn setup<A: Memory>(
    alloc: A,
    matches: Option<&ArgMatches<'_>>,
) -> Result<AnswerSetup<A>, SetupFault>
    ensures setup { Gives (λ s. s) result (setup_of matches.entry) }

    // Before the secret nothing takes memory; the secret is out of memory only where its memory may be refused.
    ensures early { IsErrOf result SetupFault.OutOfMemory → ReachesSecret matches.entry }
    ensures memory { IsErrOf result SetupFault.OutOfMemory → A.may_refuse }
{
    let site = site(matches)?;
    let key = key(matches)?;
    let secret = secret(alloc, matches)?;
    let prefix = prefix(matches)?;
    Ok(AnswerSetup {
        site,
        key,
        secret,
        prefix,
        more_specifics: is_given(matches, "more-specifics"),
    })
}

fn text<'a>(matches: Option<&ArgMatches<'a>>, id: &str) -> Option<&'a str>
    ensures { option_map (λ s. s.now) result ≡ option_text matches.entry id.now }
{
    matches?.get_str(id)
}

fn is_given(matches: Option<&ArgMatches<'_>>, id: &str) -> bool
    ensures { result ≡ flag_of (option_text matches.entry id.now) }
{
    match matches {
        None => false,
        Some(words) => words::is_given(words, id),
    }
}

fn site(matches: Option<&ArgMatches<'_>>) -> Result<u64, SetupFault>
    ensures { Reads (λ n. n) result (site_in matches.entry) }
{
    let Some(digits) = text(matches, AnswerOption::Site.name()) else {
        return Ok(DEFAULT_SITE);
    };
    site_id_from_text(digits).ok_or(SetupFault::BadOption(AnswerOption::Site))
}

fn key(matches: Option<&ArgMatches<'_>>) -> Result<u8, SetupFault>
    ensures { Reads (λ n. n) result (key_in matches.entry) }
{
    let Some(digits) = text(matches, AnswerOption::Key.name()) else {
        return Ok(DEFAULT_KEY);
    };
    match number_from_text(digits) {
        Some(number) if number < 256 => Ok(number as u8),
        _ => Err(SetupFault::BadOption(AnswerOption::Key)),
    }
}

fn secret<A: Memory>(alloc: A, matches: Option<&ArgMatches<'_>>) -> Result<Bytes<A>, SetupFault>
    ensures secret { Gives (λ b. b) result (secret_in matches.entry) }
    ensures memory { IsErrOf result SetupFault.OutOfMemory → A.may_refuse }
{
    let Some(digits) = text(matches, AnswerOption::Secret.name()) else {
        return Ok(Bytes::from_vec(Vec::try_from_slice(alloc, DEFAULT_SECRET)?));
    };
    match secret_from_text(alloc, digits)? {
        Some(secret) => Ok(secret),
        None => Err(SetupFault::BadOption(AnswerOption::Secret)),
    }
}

fn prefix(matches: Option<&ArgMatches<'_>>) -> Result<Prefix, SetupFault>
    ensures { Reads (λ p. p) result (prefix_in matches.entry) }
{
    let Some(words) = text(matches, AnswerOption::Prefix.name()) else {
        return Ok(default_prefix());
    };
    match prefix_from_text(words) {
        Some(prefix) => Ok(prefix),
        None => Err(SetupFault::BadOption(AnswerOption::Prefix)),
    }
}
