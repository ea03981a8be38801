//! Readers and writers that keep the system's error.

ghost use Rattle.std.specs.Prelude.{◌≡◌, Some, None, OnOk, IfErr};
ghost use Rattle.std.specs.Io.{ReadsAtMost, WritesAtMost};
ghost use Rattle.std.specs.Io.KnownBytes.{Appends, Keeps, ReadConsumes, WriteAppends};

use std::io::{self, Read, Write};

/// A reader that keeps the error of its last read, where that failed.
#[derive(Drop)]
pub struct WatchedReader<R> {
    reader: R,
    error: Option<io::Error>,
}

impl<R: Read> WatchedReader<R> {
    /// Over a reader of which no read failed yet.
    pub fn over(reader: R) -> WatchedReader<R>
        ensures reader { result.reader ≡ reader }
        ensures error { result.error ≡ None }
    {
        WatchedReader {
            reader,
            error: None,
        }
    }

    /// The error of the last read, where that failed.
    pub fn error(&self) -> Option<io::Error>
        ensures { result ≡ self.now.error }
    {
        self.error
    }
}

impl<R: Read> Read for WatchedReader<R> {
    ghost remaining = { λ r. R.remaining r.reader };

    fn read(&mut self, buf: &mut [u8]) -> io::Result<usize>
        ensures bound { ReadsAtMost result buf.new }
        ensures bytes { ReadConsumes (R.remaining self.old.reader) (R.remaining self.new.reader)
            result buf.new }
        ensures error { IfErr result (λ error. self.new.error ≡ Some error) }
        ensures done { OnOk result (self.new.error ≡ None) }
    {
        let read = self.reader.read(buf);
        self.error = error_of(&read);
        read
    }
}

/// A writer that keeps the error of its last call, where that failed.
#[derive(Drop)]
pub struct WatchedWriter<W> {
    writer: W,
    error: Option<io::Error>,
}

impl<W: Write> WatchedWriter<W> {
    /// Over a writer of which no call failed yet.
    pub fn over(writer: W) -> WatchedWriter<W>
        ensures writer { result.writer ≡ writer }
        ensures error { result.error ≡ None }
    {
        WatchedWriter {
            writer,
            error: None,
        }
    }

    /// The error of the last call, where that failed.
    pub fn error(&self) -> Option<io::Error>
        ensures { result ≡ self.now.error }
    {
        self.error
    }
}

impl<W: Write> Write for WatchedWriter<W> {
    ghost contents = { λ w. W.contents w.writer };

    fn write(&mut self, buf: &[u8]) -> io::Result<usize>
        ensures bound { WritesAtMost result buf.now }
        ensures bytes { WriteAppends (W.contents self.old.writer) (W.contents self.new.writer)
            result buf.now }
        ensures error { IfErr result (λ error. self.new.error ≡ Some error) }
        ensures done { OnOk result (self.new.error ≡ None) }
    {
        let written = self.writer.write(buf);
        self.error = error_of(&written);
        written
    }

    fn flush(&mut self) -> io::Result<()>
        ensures bytes { Keeps (W.contents self.old.writer) (W.contents self.new.writer) }
        ensures error { IfErr result (λ error. self.new.error ≡ Some error) }
        ensures done { OnOk result (self.new.error ≡ None) }
    {
        let flushed = self.writer.flush();
        self.error = error_of(&flushed);
        flushed
    }

    fn write_all(&mut self, buf: &[u8]) -> io::Result<()>
        ensures bytes { OnOk result (Appends (W.contents self.old.writer)
            (W.contents self.new.writer) buf.now) }
        ensures error { IfErr result (λ error. self.new.error ≡ Some error) }
        ensures done { OnOk result (self.new.error ≡ None) }
    {
        let written = self.writer.write_all(buf);
        self.error = error_of(&written);
        written
    }
}

// The error of a call, where that failed.
fn error_of<V>(answer: &io::Result<V>) -> Option<io::Error>
    ensures done { OnOk answer.now (result ≡ None) }
    ensures failed { IfErr answer.now (λ error. result ≡ Some error) }
{
    match answer {
        Ok(_) => None,
        Err(error) => Some(*error),
    }
}
