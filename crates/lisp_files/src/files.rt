//! Configurations and scripts of files.

ghost use Rattle.std.specs.Prelude.{◌≡◌};
ghost use Rattle.lisp_script.specs.RunFault.{numbered};

use crate::ending::Ending;
use crate::problem::Problem;
use crate::watched::WatchedReader;
use lisp_script::{Command, InputFault, PlayFault, RunFault, parse_script, read_to_end};
use lisp_sites::Config;
use std::alloc::Global;
use std::fs::{self, Files};
use std::io::{self, BufReader, Read};
use std::str;

/// The configuration of a file. Faults: 93 where it can't be opened, 87 and 89 by the two bounds of an
/// input, 95 where it is not UTF-8, then its own.
pub fn read_config<R: Files + AllocGlobal>(rt: &R, path: &str) -> Result<Config, Ending> {
    let bytes = read_file(rt, path)?;
    let Ok(text) = str::from_utf8(&bytes) else {
        return Err(Ending::from(PlayFault::NotUtf8));
    };
    match Config::read(rt.alloc(), rt.alloc(), text) {
        Ok(config) => Ok(config),
        Err(placed) => Err(Ending::from(InputFault::Config(placed))),
    }
}

/// The commands of a file, a script. Faults: 93, 87, 89 and 95 as of a configuration, then that of its
/// first faulty line.
pub fn read_script<R: Files + AllocGlobal>(
    rt: &R,
    config: &Config,
    path: &str,
) -> Result<Vec<Command>, Ending> {
    let bytes = read_file(rt, path)?;
    let Ok(text) = str::from_utf8(&bytes) else {
        return Err(Ending::from(PlayFault::NotUtf8));
    };
    match parse_script(rt.alloc(), rt.alloc(), config, text) {
        Ok(commands) => Ok(commands),
        Err(fault) => Err(Ending::from(PlayFault::Script(fault))),
    }
}

// The bytes of a file, by the two bounds of an input.
fn read_file<R: Files + AllocGlobal>(rt: &R, path: &str) -> Result<Vec<u8>, Ending> {
    let alloc = rt.alloc();
    match fs::open(rt, path) {
        Ok(file) => match BufReader::new(alloc, file) {
            Ok(reader) => read_input(alloc, path, reader),
            Err(_) => Err(Ending::from(RunFault::MEMORY)),
        },
        Err(error) => Err(Ending::of_file(alloc, path, Problem::Open(error))),
    }
}

// The bytes that a reader of the file has left.
fn read_input<R: Read + Drop>(alloc: Global, path: &str, reader: R) -> Result<Vec<u8>, Ending> {
    let mut reader = WatchedReader::over(reader);
    match read_to_end(alloc, &mut reader) {
        Ok(bytes) => Ok(bytes),
        Err(PlayFault::Read) => Err(unread(alloc, path, reader.error())),
        Err(fault) => Err(Ending::from(fault)),
    }
}

// A file that can't be read, with the error of its last read; fault 87.
fn unread(alloc: Global, path: &str, error: Option<io::Error>) -> Ending
    ensures { result.fault ≡ numbered 87 }
{
    let fault = RunFault::from(PlayFault::Read);
    match error {
        Some(error) => Ending::with_words(alloc, fault, path, Problem::Read(error)),
        None => Ending::from(fault),
    }
}
