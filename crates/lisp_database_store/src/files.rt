//! The files of a database at their names, by which it is seen that somebody takes them away or cuts them.

use lisp_memory::FallibleString;
use std::fs::{self, Files};
use std::io::{self, ErrorKind};
use std::os::unix::fs::MetadataExt;

/// A file: which one it is, by its device and its inode, and how many bytes it has.
#[derive(Clone, Copy, PartialEq, Eq)]
pub(crate) struct FileAt {
    device: u64,
    inode: u64,
    len: u64,
}

impl FileAt {
    fn find<R: Files>(rt: &R, path: &str) -> io::Result<FileAt> {
        let found = fs::metadata(rt, path)?;
        Ok(FileAt {
            device: found.dev(),
            inode: found.ino(),
            len: found.len(),
        })
    }

    // Whether it is the same file, whatever its length.
    fn is(&self, other: &FileAt) -> bool {
        self.device == other.device && self.inode == other.inode
    }
}

/// The two files of a database: its own, and the log beside it.
#[derive(Clone, Copy, PartialEq, Eq)]
pub(crate) struct FilesAt {
    database: FileAt,
    log: FileAt,
}

impl FilesAt {
    // Those that lie at `path` now.
    fn find<R: Files + AllocGlobal>(rt: &R, path: &str) -> io::Result<FilesAt> {
        let log = String::try_format(rt.alloc(), format_args!("{path}-wal"))?;
        Ok(FilesAt {
            database: FileAt::find(rt, path)?,
            log: FileAt::find(rt, log.as_str())?,
        })
    }

    // Whether they are the same files, whatever their lengths.
    fn are(&self, other: &FilesAt) -> bool {
        self.database.is(&other.database) && self.log.is(&other.log)
    }
}

/// What is known of the files of a database. Of what the system answers nothing is.
#[derive(Clone, Copy)]
pub(crate) enum Watch {
    /// As the last call left them that opened them or wrote.
    Left(FilesAt),
    /// Somebody removed, renamed, replaced or cut one of them: what is kept can't be known, so neither is opened again.
    Lost,
}

impl Watch {
    /// Over the files that lie at `path`, which are open.
    pub(crate) fn over<R: Files + AllocGlobal>(rt: &R, path: &str) -> io::Result<Watch> {
        Ok(Watch::Left(FilesAt::find(rt, path)?))
    }

    /// Refuses files that don't lie at `path` as they were left: from then on always, with `NotFound`.
    pub(crate) fn refuse_changed<R: Files + AllocGlobal>(
        &mut self,
        rt: &R,
        path: &str,
    ) -> io::Result<()> {
        let found = self.found(rt, path)?;
        match self {
            Watch::Left(left) if *left != found => self.lose(),
            _ => Ok(()),
        }
    }

    /// Refuses other files at `path` than those that were opened, in the same way.
    pub(crate) fn refuse_others<R: Files + AllocGlobal>(
        &mut self,
        rt: &R,
        path: &str,
    ) -> io::Result<()> {
        let found = self.found(rt, path)?;
        self.refuse(&found)
    }

    /// Notes the files at `path` after they were opened or written. Refuses others, in the same way.
    pub(crate) fn note<R: Files + AllocGlobal>(&mut self, rt: &R, path: &str) -> io::Result<()> {
        let found = self.found(rt, path)?;
        self.refuse(&found)?;
        *self = Watch::Left(found);
        Ok(())
    }

    // The files at `path`; where they were lost, or one is gone, they are lost.
    fn found<R: Files + AllocGlobal>(&mut self, rt: &R, path: &str) -> io::Result<FilesAt> {
        if matches!(self, Watch::Lost) {
            return Err(io::Error::from(ErrorKind::NotFound));
        }
        let found = FilesAt::find(rt, path);
        if matches!(&found, Err(error) if error.kind() == ErrorKind::NotFound) {
            *self = Watch::Lost;
        }
        found
    }

    fn refuse(&mut self, found: &FilesAt) -> io::Result<()> {
        match self {
            Watch::Left(left) if !left.are(found) => self.lose(),
            _ => Ok(()),
        }
    }

    fn lose(&mut self) -> io::Result<()> {
        *self = Watch::Lost;
        Err(io::Error::from(ErrorKind::NotFound))
    }
}
