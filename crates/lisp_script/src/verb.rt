//! The first word of a command.

ghost use Rattle.std.specs.Prelude.{◌≡◌, ◌≢◌, IfErr};
ghost use Rattle.lisp_script.specs.Spelling.{verb_of};
ghost use Rattle.lisp_script.specs.declared.fault.ScriptWhat.TheVariants.{Memory};

use crate::fault::ScriptWhat;

/// What a command does, by its first word.
#[derive(Clone, Copy)]
pub(crate) enum Verb {
    Change,
    Send,
    Deliver,
    Junk,
    Tick,
    Restart,
    Rotate,
    Lose,
    Notice,
    Resend,
    Reload,
    Hold,
    Acks,
    Ask,
    Request,
    Due,
}

impl Verb {
    /// The verb of a command's first word.
    pub(crate) fn from_word(word: &str) -> Result<Verb, ScriptWhat>
        ensures { result ≡ verb_of word.now }
    {
        match word {
            "change" => Ok(Verb::Change),
            "send" => Ok(Verb::Send),
            "deliver" => Ok(Verb::Deliver),
            "junk" => Ok(Verb::Junk),
            "tick" => Ok(Verb::Tick),
            "restart" => Ok(Verb::Restart),
            "rotate" => Ok(Verb::Rotate),
            "lose" => Ok(Verb::Lose),
            "notice" => Ok(Verb::Notice),
            "resend" => Ok(Verb::Resend),
            "reload" => Ok(Verb::Reload),
            "hold" => Ok(Verb::Hold),
            "acks" => Ok(Verb::Acks),
            "ask" => Ok(Verb::Ask),
            "request" => Ok(Verb::Request),
            "due" => Ok(Verb::Due),
            _ => Err(ScriptWhat::Word),
        }
    }
}
