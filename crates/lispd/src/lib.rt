//! The functions of the program `lispd`, whose `main` is a crate of its own: one Map-Register, given as a line of hexadecimal
//! digits, is answered as a fresh Map-Server would answer it (`answer`); a schedule is played over a network
//! (`lisp_player::play`); nodes run on sockets (`run_server`, `run_router`), and so does a whole network (`run_loop`), over any kind
//! of database, as SQLite's (`Sqlite`, `run_task`); a configuration is checked (`check_config`), and a number explained (`explain`).
//! `run_subcommand` runs what the words of the command line name (`command`), and `report` prints why it ended.
//!
//! # Decisions
//!
//! - A crate of this toolchain is a library or a program. So `main` is in `lispd_main`, which calls this crate alone.
//! - What `server`, `router`, `loop`, `forget`, `raise` and `check-store` run over the folders of nodes is a value first (`FolderUse`), and a
//!   task over databases of any kind (`run_task`): a call that names SQLite's type takes minutes to prove.
#![tactic(auto)]

mod subcommands;

pub use crate::subcommands::run_subcommand;
pub use lisp_answer::{AnswerFault, AnswerSetup, answer};
pub use lisp_database_store::SystemTable;
pub use lisp_files::Ending;
pub use lisp_refusals::{ExplainFault, explain, explain_all};
pub use lisp_script::{InputFault, PlayFault, RunFault};
pub use lisp_service::{run_loop, run_router, run_server};
pub use lisp_sqlite::{Sqlite, Task, run_task};
pub use lisp_udp::Answering;
pub use lisp_upkeep::Storage;
pub use lispd_cli::{
    AnswerOption, Failure, ProgramFault, SetupFault, check_config, command, report, setup,
    tells_words,
};
