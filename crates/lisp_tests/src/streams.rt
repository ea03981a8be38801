//! Readers and writers that fail.

use std::io::{self, ErrorKind, Read, Write};

/// Gives one byte a read; behind so many bytes, reads fail.
#[derive(Drop)]
pub struct Stumbling<'a> {
    pub bytes: &'a [u8],
    pub before: usize,
}

impl Read for Stumbling<'_> {
    fn read(&mut self, buf: &mut [u8]) -> io::Result<usize> {
        if self.before == 0 {
            return Err(ErrorKind::Other.into());
        }
        self.before -= 1;
        let Some((byte, rest)) = self.bytes.split_first() else {
            return Ok(0);
        };
        let Some(room) = buf.first_mut() else {
            return Ok(0);
        };
        *room = *byte;
        self.bytes = rest;
        Ok(1)
    }
}

/// Takes one byte a write, and fails where it has no more room.
#[derive(Drop)]
pub struct Narrow {
    pub taken: Vec<u8>,
    pub room: usize,
}

impl Write for Narrow {
    fn write(&mut self, buf: &[u8]) -> io::Result<usize> {
        if self.taken.len() >= self.room {
            return Err(ErrorKind::Other.into());
        }
        let Some(byte) = buf.first() else {
            return Ok(0);
        };
        self.taken.push(*byte)?;
        Ok(1)
    }

    fn flush(&mut self) -> io::Result<()> {
        Ok(())
    }
}
