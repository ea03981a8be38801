//! The words of the program `lispd`: its subcommands with their arguments and help, the options of `answer`, what is reported
//! of a fault that ends it; the subcommands that run no node, those that ask a node that runs, and the one that asks a Map-Server.
//!
//! # Decisions
//!
//! - Standard error has exactly the line `lispd: fault N`, for programs. A second line in words follows on a terminal, or with
//!   `--words`.
//! - Words of the command line and paths are escaped, so that no name of a file forges a line.
//! - The fault of an option says which option it is (`BadOption`), so that the program can say what is expected. The number is
//!   the same for each.
//! - The conversions into `ProgramFault` are written out and not derived, since a derived `From` promises nothing of its
//!   result.
//! - `ask` takes no order, and `tell` no question, so that a word that is mistyped never changes a node.
//! - A Map-Server is told the text of a configuration, and not the sites that were read of it: so both read one text by one function.
//! - `explain` takes a line as it was printed, whatever a log put in front of it.
//! - A capture is in memory as a whole, since its packets are parts of its bytes. So it has a bound: 1 GiB, five million messages of
//!   200 bytes.
#![tactic(auto)]

mod answers;
mod asking;
mod capture;
mod check;
mod command_line;
mod config_text;
mod explanation;
mod failure;
mod fault;
mod findings;
mod help;
mod options;
mod parts;
mod printed_line;
mod question;
mod reloading;
mod remedy;
mod reporting;
mod source;
mod subcommands;
mod words;

pub use asking::{Errand, ask_node};
pub use check::check_config;
pub use command_line::{CONFIG, DATABASE, FILE, NAME, STORE, TEXT, command};
pub use failure::Failure;
pub use fault::{Misuse, ProgramFault, ReadingFault, SetupFault};
pub use options::{AnswerOption, setup};
pub use question::look_up;
pub use reporting::{InWords, report};
pub use subcommands::run_alone;
pub use words::{
    ForgetWords, NodeWords, RaiseWords, forget_words, is_given, node_words, raise_words,
    tells_words, word,
};
