//! What a picture says of a command beside its line.

ghost use Rattle.std.specs.Prelude.{OnErr};

use crate::row::Row;
use crate::wrap::Lines;
use lisp_etr::{NotifyFault, RotateFault, SendFault, StartFault};
use lisp_lines::router_name;
use lisp_memory::Memory;
use lisp_model::{Event, Line, Refusal};
use lisp_nonces::{Fate, PairKind};
use lisp_player::{History, KeptNonce, Outcome, fault_number};
use lisp_refusals::{meaning, name};
use lisp_script::Command;
use lisp_server::{NoticeFault, Refused};
use lisp_sites::Config;
use lisp_texts::addr_to_text;
use std::alloc::AllocError;

impl<A: Memory + Copy> Lines<A> {
    /// Appends what isn't in the line of the command with a place: where bytes come from outside, what the store did, what a
    /// refusal means, what the store of a node that starts again kept.
    pub(crate) fn add_notes(
        &mut self,
        history: &History<A>,
        row: &Row,
        place: usize,
    ) -> Result<(), AllocError>
        ensures memory { OnErr result A.may_refuse }
    {
        let Some(outcome) = history.outcomes.get(place) else {
            return Ok(());
        };
        self.add_source(history.commands.get(place))?;
        self.add_fate(row.fate)?;
        match &outcome.line {
            Some(Line::Refused { what, .. }) => self.add_refusal(what),
            Some(Line::Restarted { .. } | Line::Emptied { .. } | Line::Renewed { .. }) => {
                self.add_kept(&history.config, outcome)
            }
            None => self.add_fault(history.lines.get(place), &outcome.text),
            _ => Ok(()),
        }
    }

    // Where bytes from outside come from.
    fn add_source(&mut self, command: Option<&Command<A>>) -> Result<(), AllocError>
        ensures memory { OnErr result A.may_refuse }
    {
        let Some(Command::Act(Event::Junk { from, bytes, .. })) = command else {
            return Ok(());
        };
        let source = addr_to_text(self.alloc, from)?;
        let length = bytes.as_slice().len();
        self.add_text(format_args!("Bytes from outside: source {source}, length {length}."))
    }

    // What a store does that is armed with a fate.
    fn add_fate(&mut self, fate: Fate) -> Result<(), AllocError>
        ensures memory { OnErr result A.may_refuse }
    {
        let failure = match fate {
            Fate::Done => return Ok(()),
            Fate::Doubt => "save fails, and what it saved may be kept or not",
            Fate::LoadFails => "load fails",
        };
        self.add_text(format_args!("The store is armed: a {failure}."))
    }

    // What a refusal means, and the number behind it, where it carries that of another fault.
    fn add_refusal(&mut self, refusal: &Refusal) -> Result<(), AllocError>
        ensures memory { OnErr result A.may_refuse }
    {
        self.add_number(refusal.number())?;
        match inner_number(refusal) {
            Some(number) => self.add_number(number),
            None => Ok(()),
        }
    }

    // Where the network doesn't take a command: the line of the script that it stands on, and what keeps the network from it.
    fn add_fault(&mut self, script_line: Option<&usize>, text: &str) -> Result<(), AllocError>
        ensures memory { OnErr result A.may_refuse }
    {
        let Some(number) = fault_number(text).and_then(|number| u16::try_from(number).ok()) else {
            return Ok(());
        };
        if let Some(line) = script_line {
            self.add_text(format_args!("Line {line} of the script."))?;
        }
        self.add_number(number)
    }

    // A number, its name and what it means.
    fn add_number(&mut self, number: u16) -> Result<(), AllocError>
        ensures memory { OnErr result A.may_refuse }
    {
        let (name, meaning) = (name(number).unwrap_or(""), meaning(number).unwrap_or(""));
        self.add_text(format_args!("{number} {name}: {meaning}"))
    }

    // What a store kept.
    fn add_kept(&mut self, config: &Config<A>, outcome: &Outcome<A>) -> Result<(), AllocError>
        ensures memory { OnErr result A.may_refuse }
    {
        if outcome.kept_count == 0 {
            return self.add("Its store keeps nothing.");
        }
        self.add("Its store keeps:")?;
        for kept in outcome.kept.iter() {
            self.add_nonce(config, kept)?;
        }
        match outcome.kept_count.saturating_sub(outcome.kept.len()) {
            0 => Ok(()),
            left => self.add_text(format_args!("and {left} more")),
        }
    }

    fn add_nonce(&mut self, config: &Config<A>, kept: &KeptNonce) -> Result<(), AllocError>
        ensures memory { OnErr result A.may_refuse }
    {
        let router = router_name(config, &kept.pair.router);
        let (key, nonce) = (kept.pair.key, kept.nonce);
        match kept.pair.kind {
            PairKind::Sent => self.add_text(format_args!("sent, key {key}: nonce {nonce}")),
            PairKind::Received => self.add_text(format_args!(
                "received from {router}, key {key}: nonce {nonce}"
            )),
            PairKind::Notice => self.add_text(format_args!("sent in notices: nonce {nonce}")),
        }
    }
}

// The number of the fault that a refusal carries: of a message that can't be read, or of a store.
fn inner_number(refusal: &Refusal) -> Option<u16> {
    match refusal {
        Refusal::Notify(NotifyFault::Read(fault)) | Refusal::Receive(Refused::Read(fault)) => {
            Some(u16::from(fault.number()))
        }
        Refusal::Receive(Refused::StoreLoad(fault) | Refused::StoreSave(fault))
        | Refusal::Send(SendFault::Store(fault))
        | Refusal::Notice(NoticeFault::StoreLoad(fault) | NoticeFault::StoreSave(fault))
        | Refusal::Start(StartFault::Store(fault))
        | Refusal::Rotate(RotateFault::Store(fault)) => Some(fault.number()),
        _ => None,
    }
}
