//! Where a configuration is read.

use crate::failure::Failure;
use crate::fault::ProgramFault;
use lisp_files::{Problem, STANDARD_INPUT, WatchedReader};
use lisp_script::{PlayFault, read_to_end};
use std::alloc::Global;
use std::fs::{self, Files, OpenFile};
use std::io::{BufReader, Read};
use std::os::unix::fs::MetadataExt;

/// The path of standard input.
pub(crate) const PATH_OF_INPUT: &str = "-";

/// The bits of a file's mode by which others than its owner can read, write or run it.
const OTHERS: u32 = 0o077;

/// The text of a configuration.
#[derive(Drop)]
pub(crate) struct Source {
    pub(crate) text: String,
    /// Others than its owner can read its file.
    pub(crate) is_open_to_others: bool,
}

/// Reads a file, or standard input, by the two bounds of an input. Faults: 93 where the file can't be opened, 87, 89, 97; 95
/// where it isn't UTF-8.
pub(crate) fn read_source<R: Input + Files + AllocGlobal>(
    rt: &R,
    path: &str,
) -> Result<Source, Failure> {
    let alloc = rt.alloc();
    if path == PATH_OF_INPUT {
        return Ok(Source {
            text: read_text(alloc, STANDARD_INPUT, rt.reader())?,
            is_open_to_others: false,
        });
    }
    let file = match fs::open(rt, path) {
        Ok(file) => file,
        Err(error) => {
            let fault = ProgramFault::File;
            return Err(Failure::of_file(alloc, fault, path, Problem::Open(error)));
        }
    };
    let is_open_to_others = is_open_to_others(&file);
    let reader = BufReader::new(alloc, file).map_err(|_| PlayFault::OutOfMemory)?;
    Ok(Source {
        text: read_text(alloc, path, reader)?,
        is_open_to_others,
    })
}

// The text that the reader of a path has left.
fn read_text<R: Read + Drop>(alloc: Global, path: &str, reader: R) -> Result<String, Failure> {
    let bytes = read_bytes(alloc, path, reader)?;
    String::from_utf8(bytes).map_err(|_| Failure::from(PlayFault::NotUtf8))
}

fn read_bytes<R: Read + Drop>(alloc: Global, path: &str, reader: R) -> Result<Vec<u8>, Failure> {
    let mut reader = WatchedReader::over(reader);
    let bytes = read_to_end(alloc, &mut reader).map_err(ProgramFault::Play);
    bytes.map_err(|fault| Failure::of_input(alloc, fault, path, reader.error()))
}

fn is_open_to_others<F: OpenFile>(file: &F) -> bool {
    match file.metadata() {
        Ok(found) => found.mode() & OTHERS != 0,
        Err(_) => false,
    }
}
