//! The file of a new database.

ghost use Rattle.std.specs.Prelude.{◌≡◌, ◌↔◌, ◌==◌, IsTrue};
ghost use Rattle.std.specs.List.{list_all};
ghost use Rattle.lisp_database_store.specs.EmptyDatabase.{IsEmptyDatabase, front};

use lisp_memory::FallibleString;
use lisp_store::is_file_there;
use std::fs::{self, OpenFile};
use std::io::{self, ErrorKind, Read, Write};
use std::rt::Files;

/// The bytes of a page.
pub(crate) const PAGE: usize = 4_096;

/// How many bytes name the format of a file.
const FORMAT: usize = 16;

/// Where `application_id` stands, which tells whose a database is.
const MARK: usize = 68;

/// How the one page of an empty database begins; the rest of it is 0.
const FRONT: [u8; 108] = [
    // "SQLite format 3" and 0.
    0x53, 0x51, 0x4c, 0x69, 0x74, 0x65, 0x20, 0x66, 0x6f, 0x72, 0x6d, 0x61, 0x74, 0x20, 0x33, 0,
    // Pages of 4,096 bytes, a log beside the file, and what is always the same.
    0x10, 0, 2, 2, 0, 64, 32, 32,
    // One change so far, and one page.
    0, 0, 0, 1, 0, 0, 0, 1,
    // No free pages, and a schema that wasn't changed.
    0, 0, 0, 0, 0, 0, 0, 0, 0, 0, 0, 0,
    // Schemas of the fourth format.
    0, 0, 0, 4, 0, 0, 0, 0, 0, 0, 0, 0,
    // Texts in UTF-8.
    0, 0, 0, 1,
    // SQLite's `user_version`: which tables it has.
    0, 0, 0, 1, 0, 0, 0, 0,
    // SQLite's `application_id`: whose file it is, "LISP".
    0x4c, 0x49, 0x53, 0x50, 0, 0, 0, 0, 0, 0, 0, 0, 0, 0, 0, 0, 0, 0, 0, 0, 0, 0, 0, 0,
    // After the first change, as SQLite 3.40.1 writes.
    0, 0, 0, 1, 0, 0x2e, 0x63, 1,
    // A table without rows: the schema.
    13, 0, 0, 0, 0, 0x10, 0, 0,
];

/// Puts an empty database at `path`, where no file is there, which tells whose it is: the page is written into a new file, named with
/// `.new` added, which is synced and then renamed; last the folder is synced. So a crash leaves no database or a whole one, and never a
/// log without its database. Such a log has nonces, which SQLite would drop: it is an error of the kind `InvalidData`, and stays. So is a
/// file without a whole page, which no crash leaves: SQLite would begin an empty database in it, and drop its log.
pub(crate) fn place_empty<R: Files + AllocGlobal>(rt: &R, path: &str) -> io::Result<()> {
    if is_file_there(rt, path)? {
        return refuse_short(rt, path);
    }
    let log = String::try_format(rt.alloc(), format_args!("{path}-wal"))?;
    if is_file_there(rt, log.as_str())? {
        return Err(io::Error::from(ErrorKind::InvalidData));
    }
    let new = String::try_format(rt.alloc(), format_args!("{path}.new"))?;
    is_file_there(rt, new.as_str())?;
    let mut file = fs::create(rt, new.as_str())?;
    file.write_all(&FRONT)?;
    file.set_len(PAGE as u64)?;
    file.sync_all()?;
    fs::rename(rt, new.as_str(), path)?;
    fs::open(rt, folder_of(path))?.sync_all()
}

/// The first bytes of the file at `path`, at most one more than a page has: they show whether it is an empty database.
pub(crate) fn front_of<R: Files + AllocGlobal>(rt: &R, path: &str) -> io::Result<Vec<u8>> {
    let mut front = Vec::new(rt.alloc());
    fs::open(rt, path)?
        .take(PAGE as u64 + 1)
        .read_to_end(&mut front)?;
    Ok(front)
}

/// Whether the bytes are those of an empty database, as `place_empty` writes it.
pub(crate) fn is_empty_database(bytes: &[u8]) -> bool
    ensures { IsTrue result ↔ IsEmptyDatabase bytes.now }
{
    if bytes.len() != PAGE {
        return false;
    }
    let (front, rest) = bytes.split_at(FRONT.len());
    is_front(front) && are_zero(rest)
}

// Whether an empty database begins so.
fn is_front(bytes: &[u8]) -> bool
    ensures { IsTrue result ↔ (bytes.now ≡ front) }
{
    are_same(bytes, FRONT.as_slice())
}

// Whether both are the same bytes: an array as a slice, so that the contract compares two lists.
fn are_same(bytes: &[u8], others: &[u8]) -> bool
    ensures { IsTrue result ↔ (bytes.now ≡ others.now) }
{
    bytes == others
}

// Whether each byte is 0.
fn are_zero(bytes: &[u8]) -> bool
    ensures { result ≡ list_all (λ b. b == 0) bytes.now }
{
    bytes.iter().all(|byte| *byte == 0)
}

/// Whether a file that begins with these bytes is SQLite's, with the `application_id` of databases of nonces.
pub(crate) fn is_marked(bytes: &[u8]) -> bool {
    bytes.starts_with(&FRONT[..FORMAT])
        && matches!(bytes.get(MARK..MARK + 4), Some(mark) if mark == &FRONT[MARK..MARK + 4])
}

// Refuses a file that has no whole page.
fn refuse_short<R: Files>(rt: &R, path: &str) -> io::Result<()> {
    if fs::metadata(rt, path)?.len() < PAGE as u64 {
        return Err(io::Error::from(ErrorKind::InvalidData));
    }
    Ok(())
}

// The folder of a path.
fn folder_of(path: &str) -> &str {
    match path.rsplit_once('/') {
        Some((folder, _)) => folder,
        None => ".",
    }
}
