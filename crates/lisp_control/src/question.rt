//! What a user asks of a node that runs, or tells it to do.

ghost use Rattle.std.specs.Prelude.{◌≡◌};
ghost use Rattle.lisp_model.specs.Trace.{event_value};
ghost use Rattle.lisp_script.specs.Command.{command_value};
ghost use Rattle.lisp_control.specs.Question.{question_of, due_at, told, order_of};

use lisp_lines::{RouterQuestion, ServerQuestion};
use lisp_model::Event;
use lisp_nonces::Fate;
use lisp_policy::Sites;
use lisp_records::Database;
use lisp_script::{Command, ScriptWhat};
use lisp_sites::Config;
use lisp_statistics::Format;
use lisp_turns::Order;

/// What a user asks of a node that runs, or tells it to do. It has no `Debug`, as sites have none.
#[derive(Drop)]
pub enum Question {
    /// What a Map-Server answers by its core.
    Server(ServerQuestion),
    /// What a router answers by its core.
    Router(RouterQuestion),
    /// Which routers a Map-Server heard since its start.
    Routers,
    /// What is counted of the node since its start.
    Counts(Format),
    /// Which of these records the router's site doesn't allow, by the configuration.
    Disallowed(Database),
    /// The Map-Servers and routers of the node's configuration.
    Nodes,
    /// So many bytes of sites follow, to be gathered.
    Sites(usize),
    /// What taking these sites, which were gathered, would do.
    Compare(Sites),
    /// What the node is to do.
    Tell(Order),
}

impl Question {
    /// What a command asks of the node with a number. `Word` where it asks another node, or is nothing that one asks of a node: what the
    /// node does of itself, what happens to it, and what its store would do.
    pub(crate) fn from_command(
        config: &Config,
        number: usize,
        command: Command,
    ) -> Result<Question, ScriptWhat>
        ensures { result ≡ question_of config.now number (command_value command) }
    {
        match command {
            Command::Hold(node) if node == number => Ok(Question::Server(ServerQuestion::Hold)),
            Command::Ask { server, addr } if server == number => {
                Ok(Question::Server(ServerQuestion::Ask(addr)))
            }
            Command::Acks(node) if node == number => Ok(Question::Router(RouterQuestion::Acks)),
            Command::Due(node) if node == number => Ok(due_at(config, number)),
            Command::Act(event) => told(order_of(event, number)),
            _ => Err(ScriptWhat::Word),
        }
    }
}

// What is due at the node with a number.
fn due_at(config: &Config, number: usize) -> Question
    ensures { result ≡ due_at config.now number }
{
    if config.is_server(number) {
        Question::Server(ServerQuestion::Due)
    } else {
        Question::Router(RouterQuestion::Due)
    }
}

// What one tells the node, if anything.
fn told(order: Option<Order>) -> Result<Question, ScriptWhat>
    ensures { result ≡ told order }
{
    match order {
        Some(order) => Ok(Question::Tell(order)),
        None => Err(ScriptWhat::Word),
    }
}

// What an event tells the node with a number to do.
fn order_of(event: Event, number: usize) -> Option<Order>
    ensures { result ≡ order_of number (event_value event) }
{
    match event {
        Event::Notice {
            server,
            router,
            fate: Fate::Done,
        } if server == number => Some(Order::Notice { router }),
        Event::Change { router, db } if router == number => Some(Order::Change { db }),
        Event::Rotate {
            router,
            key,
            fate: Fate::Done,
        } if router == number => Some(Order::Rotate { key }),
        _ => None,
    }
}
