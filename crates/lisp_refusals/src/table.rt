//! The whole table, and what its first row tells that has a number.

ghost use Rattle.std.specs.Prelude.{◌≡◌};
ghost use Rattle.std.specs.Option.{option_map};
ghost use Rattle.std.specs.List.{find};
ghost use Rattle.lisp_refusals.specs.Numbers.{HasNumbers};
ghost use Rattle.lisp_refusals.specs.Table.{has_number, has_row, first_in, IsToldOf};

use crate::explaining::has_row;
use crate::message_faults::{MESSAGE_FAULTS, RECORD_FAULTS, REQUEST_FAULTS, RESOLVE_REFUSALS};
use crate::program_faults::{
    CONFIGURATION_FAULTS, DATABASE_FAULTS, LIBRARY_REFUSALS, NETWORK_FAULTS, PROGRAM_FAULTS,
    SCRIPT_FAULTS, SOCKET_FAULTS,
};
use crate::router_faults::{ROTATE_FAULTS, ROUTER_REFUSALS, SEND_FAULTS, START_FAULTS};
use crate::row::{Row, Section};
use crate::server_refusals::{NOTICE_FAULTS, SERVER_REFUSALS, STORE_FAULTS};

// The head of the document.
const OPENING: &str = "# Refusals and faults

Every number of a refusal or a fault, what it means and what to do about it: those that the program prints, those of
calls that no subcommand makes yet, and those of the library for C programs. This is what `lispd explain` prints;
`lispd explain N` prints what is known of the number N, and `lispd explain` with a line that a node printed what is known of each
number in it. A number may stand in several sections: what is printed before it tells which is meant.

A refusal is an answer: `lispd answer` prints `refused N` and ends with status 0; the other programs print
`refused NAME N`, with the name of the node, and go on. A fault ends the program, which prints `lispd: fault N` on standard
error; its status is 1 where files, sockets, reading, writing or memory fail, and 2 for the words of the command line, the
configuration and the script. A refusal or a fault that keeps a node from what `lispd tell` orders ends `lispd tell` so, with the
status 3; a negative Map-Reply ends `lispd look` with the status 4. A new refusal would take 146, which is free.
";

/// What stands before the sections.
pub(crate) fn opening() -> &'static str {
    OPENING
}

/// The sections, in the order of the document.
#[tactic(auto, unfolding(crate::specs::Numbers::numbers))]
pub(crate) fn sections() -> [Section; 18]
    ensures { HasNumbers result }
{
    [
        SERVER_REFUSALS,
        NOTICE_FAULTS,
        START_FAULTS,
        SEND_FAULTS,
        ROTATE_FAULTS,
        ROUTER_REFUSALS,
        MESSAGE_FAULTS,
        RECORD_FAULTS,
        REQUEST_FAULTS,
        RESOLVE_REFUSALS,
        CONFIGURATION_FAULTS,
        DATABASE_FAULTS,
        STORE_FAULTS,
        NETWORK_FAULTS,
        SCRIPT_FAULTS,
        SOCKET_FAULTS,
        PROGRAM_FAULTS,
        LIBRARY_REFUSALS,
    ]
}

/// What an operator does about the number, of the first row that has it, in the order of the table; `None` where no row has it.
pub fn remedy(number: u16) -> Option<&'static str>
    ensures value { IsToldOf (λ row. row.remedy.now) number (option_map (λ text. text.now) result) }
{
    Some(first_in(&sections(), number)?.remedy)
}

/// The name of the number in the code, empty where it has none, of the first row that has it; `None` where no row has it.
pub fn name(number: u16) -> Option<&'static str>
    ensures value { IsToldOf (λ row. row.name.now) number (option_map (λ text. text.now) result) }
{
    Some(first_in(&sections(), number)?.name)
}

/// What the number means, and when it comes, of the first row that has it; `None` where no row has it.
pub fn meaning(number: u16) -> Option<&'static str>
    ensures value { IsToldOf (λ row. row.meaning.now) number
        (option_map (λ text. text.now) result) }
{
    Some(first_in(&sections(), number)?.meaning)
}

fn first_in(sections: &[Section], number: u16) -> Option<&'static Row>
    ensures { option_map (λ row. row.now) result ≡ first_in number sections.now }
{
    first_row(first_section(sections, number)?, number)
}

// The first section with the number.
fn first_section(sections: &[Section], number: u16) -> Option<&Section>
    ensures { option_map (λ section. section.now) result ≡ find (has_row number) sections.now }
{
    sections.iter().find(|section| has_row(section, number))
}

// The first row of the section with the number.
fn first_row(section: &Section, number: u16) -> Option<&'static Row>
    ensures { option_map (λ row. row.now) result ≡ find (has_number number) section.now.rows.now }
{
    section.rows.iter().find(|row| row.number == number)
}
