//! The descriptors of standard input, standard output and standard error.

use std::fs::{File, Files, OpenOptions};
use std::os::fd::{AsRawFd, IntoRawFd};

/// What takes the place of a descriptor that is closed.
const NULL: &str = "/dev/null";

/// The descriptors: 0, 1 and 2.
const COUNT: i32 = 3;

/// Opens `/dev/null` at each of them that is closed, so that no file and no socket that is opened later takes its number, and with
/// it what is printed. It stays open to the end.
pub(crate) fn open_closed<R: Files<File = File>>(rt: &R) {
    for _ in 0..COUNT {
        let Ok(file) = OpenOptions::new().read(true).write(true).open(rt, NULL) else {
            return;
        };
        // The system gives the lowest number that is free.
        if file.as_raw_fd() >= COUNT {
            return;
        }
        file.into_raw_fd();
    }
}
