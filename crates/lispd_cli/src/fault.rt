//! What keeps `setup` from giving a setup, what is wrong with the words of the command line, what keeps a capture from being told, and what
//! ends the program: each with its number and its exit status, 1 where files, streams or memory fail, 2 for the words of the command line,
//! 3 where a node refuses and 4 for a negative Map-Reply.

ghost use Rattle.std.specs.Prelude.{◌≡◌};
ghost use Rattle.lispd_cli.specs.Fault.{setup_fault_number, setup_fault_status, reading_fault_number, reading_fault_status, program_fault_number, program_fault_status, program_fault_line};

use crate::options::AnswerOption;
use lisp_answer::AnswerFault;
use lisp_captures::CaptureFault;
use lisp_look::LookFault;
use lisp_refusals::ExplainFault;
use lisp_script::{InputFault, PlayFault, RunFault};
use lisp_transcript::WriteFault;
use std::alloc::AllocError;
use thiserror::Error;

/// What kept `setup` from giving a setup.
#[derive(Clone, Copy, Debug, Error)]
pub enum SetupFault {
    /// An option's value has another form than the option takes.
    #[error("{0}")]
    BadOption(AnswerOption),
    /// Out of memory for the setup.
    #[error("out of memory: free some and try again")]
    OutOfMemory,
}

impl SetupFault {
    /// The number that operators see: `BadOption` 98, `OutOfMemory` 97.
    pub const fn number(&self) -> u16
        ensures { result ≡ setup_fault_number self.now }
    {
        match self {
            SetupFault::BadOption(_) => 98,
            SetupFault::OutOfMemory => 97,
        }
    }

    /// The exit status: `BadOption` 2, `OutOfMemory` 1.
    pub const fn status(&self) -> u8
        ensures { result ≡ setup_fault_status self.now }
    {
        match self {
            SetupFault::BadOption(_) => 2,
            SetupFault::OutOfMemory => 1,
        }
    }
}

impl From<AllocError> for SetupFault {
    ghost use Rattle.lispd_cli.specs.declared.fault.SetupFault.TheVariants as setup_faults;

    ghost from_gives = { λ _ fault. fault ≡ setup_faults.OutOfMemory };

    fn from(_error: AllocError) -> SetupFault {
        SetupFault::OutOfMemory
    }
}

/// What is wrong with the words of a subcommand, as its error says: 98, with the exit status 2.
#[derive(Clone, Copy, Debug, Error)]
pub enum Misuse {
    #[error("--turns takes a whole number from 0 to 4294967295")]
    Turns,
    #[error("--known isn't taken with --turns")]
    Known,
    #[error("--json isn't taken with --turns")]
    Json,
    #[error("--group takes a whole number from 1 to 64")]
    Group,
    #[error("--group is taken only with --database")]
    GroupOfFiles,
    #[error("--quiet takes a whole number from 0 to 3600, in seconds")]
    Quiet,
    #[error("--budget takes a whole number from 1024 to 262144, in bytes")]
    Budget,
    #[error("--remove is taken only with LIST")]
    NoList,
    #[error("N takes a whole number from 1 to 4294967295")]
    By,
    #[error("--json isn't taken with --prometheus")]
    TwoForms,
    #[error("EID takes an address or an EID-Prefix: four numbers with dots, such as 10.1.2.3 or 10.1.0.0/16, or eight groups with \
colons and no `::`, such as 2001:db8:1:0:0:0:0:5")]
    Eid,
    #[error("--server takes an address: four numbers with dots, such as 192.0.2.1, or eight groups with colons and no `::`")]
    Server,
    #[error("--from takes an address: four numbers with dots, such as 192.0.2.9, or eight groups with colons and no `::`")]
    From,
    #[error("--from takes an address of the family of that of --server, since a Map-Reply comes over it")]
    Family,
    #[error("--tries takes a whole number from 1 to 100")]
    Tries,
}

/// What keeps the capture that `read` is given from being told.
#[derive(Clone, Copy, Debug, Error)]
pub enum ReadingFault {
    /// `--schedule` comes without a configuration.
    #[error("--schedule is taken only with CONFIG")]
    NoConfig,
    /// Standard input is to be both the capture and the configuration.
    #[error("`-` is taken as FILE or as CONFIG, not as both")]
    InputTwice,
    /// The capture has more than 1,073,741,824 bytes.
    #[error("the capture has more than 1,073,741,824 bytes: give it in parts")]
    TooLong,
    /// The file is no capture.
    #[error(transparent)]
    Capture(CaptureFault),
    /// A line can't be written, or memory ran out for it.
    #[error(transparent)]
    Output(WriteFault),
}

impl ReadingFault {
    /// The number that operators see: `NoConfig` and `InputTwice` 98, `TooLong` 89, of `Capture` `Unknown` 143 and `Short` 144, of
    /// `Output` `Write` 88 and `OutOfMemory` 97.
    pub const fn number(&self) -> u16
        ensures { result ≡ reading_fault_number self.now }
    {
        match self {
            ReadingFault::NoConfig | ReadingFault::InputTwice => 98,
            ReadingFault::TooLong => 89,
            ReadingFault::Capture(CaptureFault::Unknown) => 143,
            ReadingFault::Capture(CaptureFault::Short) => 144,
            ReadingFault::Output(WriteFault::Write) => 88,
            ReadingFault::Output(WriteFault::OutOfMemory) => 97,
        }
    }

    /// The exit status: `TooLong` and `Output` 1, the others 2.
    pub const fn status(&self) -> u8
        ensures { result ≡ reading_fault_status self.now }
    {
        match self {
            ReadingFault::NoConfig | ReadingFault::InputTwice | ReadingFault::Capture(_) => 2,
            ReadingFault::TooLong | ReadingFault::Output(_) => 1,
        }
    }
}

/// What ends the program.
#[derive(Clone, Copy, Debug, Error)]
pub enum ProgramFault {
    /// A word of the command line is not UTF-8.
    #[error("a word of the command line is not UTF-8")]
    Words,
    /// The words of a subcommand are wrong.
    #[error(transparent)]
    Misused(Misuse),
    /// The options give no setup.
    #[error(transparent)]
    Setup(SetupFault),
    /// The line was not answered.
    #[error(transparent)]
    Answer(AnswerFault),
    /// The file can't be opened.
    #[error("the file can't be opened")]
    File,
    /// The schedule was not played to its end, or the configuration is faulty.
    #[error(transparent)]
    Play(PlayFault),
    /// A node or network on sockets and files ended before its end.
    #[error("the program stopped")]
    Run(RunFault),
    /// The number has another form than `explain` takes, is that of nothing, or its text can't be written.
    #[error(transparent)]
    Explain(ExplainFault),
    /// No node runs over the folder, or it didn't answer.
    #[error("no node answers there: it doesn't run, or ended")]
    Unanswered,
    /// The node doesn't do what it was told, for a refusal or a fault with this number; nothing was sent, or its answer was printed.
    #[error("the node doesn't do it")]
    Refused(u16),
    /// No positive Map-Reply came.
    #[error(transparent)]
    Look(LookFault),
    /// The capture isn't told to its end.
    #[error(transparent)]
    Reading(ReadingFault),
    /// The configuration has warnings, and `--strict` was given; or it has tables that are ignored.
    #[error("the configuration has warnings, and --strict was given")]
    Warnings,
}

impl ProgramFault {
    /// The number that operators see: `Words` and `Misused` 98, `File` 93, `Unanswered` 99, `Warnings` 25, or that of the fault or the
    /// refusal inside.
    pub const fn number(&self) -> u16
        ensures { result ≡ program_fault_number self.now }
    {
        match self {
            ProgramFault::Words | ProgramFault::Misused(_) => 98,
            ProgramFault::Setup(fault) => fault.number(),
            ProgramFault::Answer(fault) => fault.number(),
            ProgramFault::File => 93,
            ProgramFault::Play(fault) => fault.number(),
            ProgramFault::Run(fault) => fault.number,
            ProgramFault::Explain(fault) => fault.number(),
            ProgramFault::Unanswered => 99,
            ProgramFault::Refused(number) => *number,
            ProgramFault::Look(fault) => fault.number(),
            ProgramFault::Reading(fault) => fault.number(),
            ProgramFault::Warnings => 25,
        }
    }

    /// The exit status: `Words`, `Misused` and `Warnings` 2, `Refused` 3, `File` and `Unanswered` 1, or that of the fault inside.
    pub fn status(&self) -> u8
        ensures { result ≡ program_fault_status self.now }
    {
        match self {
            ProgramFault::Words | ProgramFault::Misused(_) | ProgramFault::Warnings => 2,
            ProgramFault::Setup(fault) => fault.status(),
            ProgramFault::Answer(fault) => fault.status(),
            ProgramFault::File | ProgramFault::Unanswered => 1,
            ProgramFault::Play(fault) => fault.status(),
            ProgramFault::Run(fault) => fault.status(),
            ProgramFault::Explain(fault) => fault.status(),
            ProgramFault::Refused(_) => 3,
            ProgramFault::Look(fault) => fault.status(),
            ProgramFault::Reading(fault) => fault.status(),
        }
    }

    /// The line of the script or the list that is faulty, from 1 on; `None` where the fault is elsewhere.
    pub const fn line(&self) -> Option<usize>
        ensures { result ≡ program_fault_line self.now }
    {
        match self {
            ProgramFault::Play(fault) => fault.line(),
            ProgramFault::Run(fault) => fault.line(),
            _ => None,
        }
    }
}

impl From<Misuse> for ProgramFault {
    ghost use Rattle.lispd_cli.specs.declared.fault.ProgramFault.TheVariants.{Misused};

    ghost from_gives = { λ why fault. fault ≡ Misused why };

    fn from(why: Misuse) -> ProgramFault {
        ProgramFault::Misused(why)
    }
}

impl From<AllocError> for ProgramFault {
    ghost use Rattle.lispd_cli.specs.declared.fault.SetupFault.TheVariants.{OutOfMemory};
    ghost use Rattle.lispd_cli.specs.declared.fault.ProgramFault.TheVariants.{Setup};

    ghost from_gives = { λ _ fault. fault ≡ Setup OutOfMemory };

    fn from(_error: AllocError) -> ProgramFault {
        ProgramFault::Setup(SetupFault::OutOfMemory)
    }
}

impl From<PlayFault> for ProgramFault {
    ghost use Rattle.lispd_cli.specs.declared.fault.ProgramFault.TheVariants.{Play};

    ghost from_gives = { λ why fault. fault ≡ Play why };

    fn from(why: PlayFault) -> ProgramFault {
        ProgramFault::Play(why)
    }
}

impl From<InputFault> for ProgramFault {
    ghost use Rattle.lispd_cli.specs.Fault.{of_input};

    ghost from_gives = { λ why fault. fault ≡ of_input why };

    fn from(why: InputFault) -> ProgramFault {
        match why {
            InputFault::File => ProgramFault::File,
            InputFault::Config(placed) => ProgramFault::Play(PlayFault::Config(placed.fault)),
            InputFault::Input(fault) => ProgramFault::Play(fault),
        }
    }
}
