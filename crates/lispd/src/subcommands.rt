//! What each subcommand runs.

use clap::ArgMatches;
use lisp_database_store::SystemTable;
use lisp_files::{Ending, Problem, STANDARD_INPUT, WatchedReader, WatchedWriter};
use lisp_picture::{Form, draw};
use lisp_player::{Untaken, play_noting};
use lisp_script::PlayFault;
use lisp_service::{FolderUse, NodeStart, Stretch, Subject, use_folders};
use lisp_sqlite::{Task, run_task};
use lisp_udp::{Answering, LineForm, NodeKind};
use lisp_upkeep::{Forgetting, Storage};
use lispd_cli::{
    CONFIG, DATABASE, Errand, FILE, Failure, ForgetWords, NAME, NodeWords, ProgramFault,
    RaiseWords, STORE, TEXT, ask_node, forget_words, is_given, look_up, node_words, raise_words,
    run_alone, word,
};
use std::alloc::Global;
use std::fs;
use std::io::{self, BufReader, Read, Write};
use std::rt::Files;

/// The path of standard input.
const PATH_OF_INPUT: &str = "-";

/// Runs the subcommand that the words name; with none, `answer`.
pub fn run_subcommand(rt: &HostRuntime, matches: &ArgMatches<'_>) -> Result<(), Failure> {
    let mut writer = WatchedWriter::over(io::writer(rt));
    let named = matches.subcommand();
    let ran = match named_run(named) {
        Ok(None) => run_other(rt, named, &mut writer),
        Ok(Some(run)) => {
            let task = RunTask {
                rt,
                run,
                writer: &mut writer,
            };
            match run_task(task) {
                Ok(()) => Ok(()),
                Err(ending) => Err(Failure::from(ending)),
            }
        }
        Err(fault) => Err(Failure::from(fault)),
    };
    match ran {
        Ok(()) => Ok(()),
        Err(failure) => Err(failure.with_output(rt.alloc(), writer.error())),
    }
}

/// What is to run over the folders of nodes.
#[derive(Clone, Copy)]
struct Run<'a> {
    dir: &'a str,
    storage: Storage,
    wanted: FolderUse<'a>,
}

/// The same, over databases of any kind, with where its lines go.
struct RunTask<'a, W> {
    rt: &'a HostRuntime,
    run: Run<'a>,
    writer: &'a mut W,
}

impl<W: Write> Task for RunTask<'_, W> {
    type Output = Result<(), Ending>;

    fn run<T: SystemTable>(self) -> Result<(), Ending> {
        let RunTask { rt, run, writer } = self;
        let Run {
            dir,
            storage,
            wanted,
        } = run;
        use_folders::<T, W>(rt, dir, storage, wanted, writer)
    }
}

// What `server`, `router`, `loop`, `forget`, `raise` and `check-store` run; `None` for other subcommands.
fn named_run<'a>(named: Option<(&str, &ArgMatches<'a>)>) -> Result<Option<Run<'a>>, ProgramFault> {
    let Some((name, words)) = named else {
        return Ok(None);
    };
    match name {
        "server" => Ok(Some(node_run(NodeKind::Server, words)?)),
        "router" => Ok(Some(node_run(NodeKind::Router, words)?)),
        "loop" => Ok(Some(network_run(words))),
        "forget" => Ok(Some(forget_run(words)?)),
        "raise" => Ok(Some(raise_run(words)?)),
        "check-store" => Ok(Some(check_store_run(words))),
        _ => Ok(None),
    }
}

fn node_run<'a>(kind: NodeKind, words: &ArgMatches<'a>) -> Result<Run<'a>, ProgramFault> {
    let NodeWords {
        config,
        name,
        dir,
        turns,
        is_known,
        is_json,
        has_database,
        group,
        quiet,
        budget,
        control,
    } = node_words(words)?;
    let stretch = match turns {
        Some(turns) => Stretch::Turns(turns),
        None => Stretch::Endless {
            is_known,
            form: line_form(is_json),
        },
    };
    let node = NodeStart {
        kind,
        name,
        stretch,
        control,
        answering: Answering {
            quiet,
            each: budget,
        },
    };
    Ok(Run {
        dir,
        storage: storage(has_database, group),
        wanted: FolderUse::Run {
            config,
            subject: Subject::Node(node),
        },
    })
}

fn line_form(is_json: bool) -> LineForm {
    if is_json {
        LineForm::Objects
    } else {
        LineForm::Words
    }
}

fn network_run<'a>(words: &ArgMatches<'a>) -> Run<'a> {
    let script = word(words, FILE);
    Run {
        dir: word(words, STORE),
        storage: storage(is_given(words, DATABASE), 1),
        wanted: FolderUse::Run {
            config: word(words, CONFIG),
            subject: Subject::Network { script },
        },
    }
}

fn forget_run<'a>(words: &ArgMatches<'a>) -> Result<Run<'a>, ProgramFault> {
    let ForgetWords {
        name,
        dir,
        has_database,
        list,
        removes,
    } = forget_words(words)?;
    let forgetting = match list {
        Some(list) if removes => Forgetting::Remove { list },
        Some(list) => Forgetting::Unheard { list },
        None => Forgetting::Nothing,
    };
    Ok(Run {
        dir,
        storage: storage(has_database, 1),
        wanted: FolderUse::Forget { name, forgetting },
    })
}

fn raise_run<'a>(words: &ArgMatches<'a>) -> Result<Run<'a>, ProgramFault> {
    let RaiseWords {
        name,
        dir,
        has_database,
        by,
    } = raise_words(words)?;
    Ok(Run {
        dir,
        storage: storage(has_database, 1),
        wanted: FolderUse::Raise { name, by },
    })
}

fn check_store_run<'a>(words: &ArgMatches<'a>) -> Run<'a> {
    let name = word(words, NAME);
    Run {
        dir: word(words, STORE),
        storage: storage(is_given(words, DATABASE), 1),
        wanted: FolderUse::Check { name },
    }
}

fn storage(has_database: bool, group: u8) -> Storage {
    if has_database {
        Storage::Database { group }
    } else {
        Storage::Files
    }
}

// Runs any other subcommand; with none, `answer`.
fn run_other<W: Write>(
    rt: &HostRuntime,
    named: Option<(&str, &ArgMatches<'_>)>,
    writer: &mut W,
) -> Result<(), Failure> {
    let Some((name, words)) = named else {
        return run_alone(rt, named, writer);
    };
    match name {
        "play" => run_schedule(rt, words, Outlet::Lines, writer),
        "draw" => run_draw(rt, words, writer),
        "ask" => ask_node(rt, Errand::Ask, words, writer),
        "tell" => ask_node(rt, Errand::Tell, words, writer),
        "look" => look_up(rt, words, writer),
        _ => run_alone(rt, named, writer),
    }
}

/// What becomes of a schedule that is played.
#[derive(Clone, Copy)]
enum Outlet {
    /// Its lines are printed.
    Lines,
    /// Its picture is.
    Picture(Form),
}

fn run_draw<R: Input + Files + AllocGlobal + Eprint, W: Write>(
    rt: &R,
    words: &ArgMatches<'_>,
    writer: &mut W,
) -> Result<(), Failure> {
    let form = if is_given(words, TEXT) {
        Form::Text
    } else {
        Form::Svg
    };
    run_schedule(rt, words, Outlet::Picture(form), writer)
}

// Plays the schedule of a file, and reports the commands that the network didn't take, which lines have.
fn run_schedule<R: Input + Files + AllocGlobal + Eprint, W: Write>(
    rt: &R,
    words: &ArgMatches<'_>,
    outlet: Outlet,
    writer: &mut W,
) -> Result<(), Failure> {
    let mut untaken = Vec::new(rt.alloc());
    let played = play_path(rt, outlet, word(words, FILE), writer, &mut untaken);
    for command in &untaken {
        let Untaken { line, number } = *command;
        let _ = eprintln!(rt; "lispd: fault {number} line {line}");
    }
    played
}

fn play_path<R: Input + Files + AllocGlobal, W: Write>(
    rt: &R,
    outlet: Outlet,
    path: &str,
    writer: &mut W,
    untaken: &mut Vec<Untaken>,
) -> Result<(), Failure> {
    let alloc = rt.alloc();
    if path == PATH_OF_INPUT {
        return play_watched(alloc, outlet, STANDARD_INPUT, rt.reader(), writer, untaken);
    }
    match fs::open(rt, path) {
        Ok(file) => play_file(alloc, outlet, path, file, writer, untaken),
        Err(error) => {
            let fault = ProgramFault::File;
            Err(Failure::of_file(alloc, fault, path, Problem::Open(error)))
        }
    }
}

fn play_file<R: Read + Drop, W: Write>(
    alloc: Global,
    outlet: Outlet,
    path: &str,
    file: R,
    writer: &mut W,
    untaken: &mut Vec<Untaken>,
) -> Result<(), Failure> {
    match BufReader::new(alloc, file) {
        Ok(reader) => play_watched(alloc, outlet, path, reader, writer, untaken),
        Err(_) => Err(Failure::from(PlayFault::OutOfMemory)),
    }
}

// As `play_from`, with the path and the error of a reader that fails.
fn play_watched<R: Read + Drop, W: Write>(
    alloc: Global,
    outlet: Outlet,
    path: &str,
    reader: R,
    writer: &mut W,
    untaken: &mut Vec<Untaken>,
) -> Result<(), Failure> {
    let mut reader = WatchedReader::over(reader);
    match play_from(alloc, outlet, &mut reader, writer, untaken) {
        Ok(()) => Ok(()),
        Err(fault) => Err(Failure::of_input(alloc, fault, path, reader.error())),
    }
}

// As `play_noting` or `draw`. It promises nothing, so that nothing need be proved of standard input.
fn play_from<R: Read, W: Write>(
    alloc: Global,
    outlet: Outlet,
    reader: &mut R,
    writer: &mut W,
    untaken: &mut Vec<Untaken>,
) -> Result<(), ProgramFault> {
    match outlet {
        Outlet::Lines => play_noting(alloc, alloc, reader, writer, untaken)?,
        Outlet::Picture(form) => draw(alloc, alloc, form, reader, writer)?,
    }
    Ok(())
}
