//! The headers of a document, in its text.

ghost use Rattle.std.specs.Prelude.{◌≡◌, IfOk};
ghost use Rattle.lisp_check.specs.Header.{headers_in, line_feeds, AddsHeader};

use crate::mode::Mode;
use lisp_memory::FallibleVec;
use std::alloc::{AllocError, Global};

/// Where a header such as `[[site]]` or `[site.key]` begins: its line, counted from 1, and how many bytes of the text stand before it.
#[derive(Clone, Copy)]
pub struct Header {
    pub line: usize,
    pub offset: usize,
}

/// The headers of a text: each stands at the start of a line, after blanks at most, and in no string of several lines.
#[tactic(auto, using(crate::proofs::Each::steps))]
pub fn headers(alloc: Global, text: &str) -> Result<Vec<Header>, AllocError>
    ensures headers { IfOk result (λ headers. headers.items ≡ headers_in text.now) }
{
    let mut headers = Vec::new(alloc);
    let mut mode = Mode::Start;
    let (mut line, mut offset) = (1, 0);
    let mut rest = text.as_bytes();
    while let [byte, others @ ..] = rest {
        add_header(&mut headers, Header { line, offset }, mode, *byte)?;
        line += line_feeds(*byte);
        offset += 1;
        mode = mode.step(*byte);
        rest = others;
    }
    Ok(headers)
}

// Adds the header, where it is one.
fn add_header(
    headers: &mut Vec<Header>,
    header: Header,
    mode: Mode,
    byte: u8,
) -> Result<(), AllocError>
    ensures { AddsHeader result headers.old headers.new header mode byte }
{
    if mode.is_start() && byte == b'[' {
        headers.try_push(header)?;
    }
    Ok(())
}

fn line_feeds(byte: u8) -> usize
    ensures { result ≡ line_feeds byte }
{
    if byte == b'\n' { 1 } else { 0 }
}

/// The name of the header after so many bytes: what stands between its brackets.
pub(crate) fn name_at(text: &str, offset: usize) -> &str {
    let Some(header) = text.get(offset..) else {
        return "";
    };
    let rest = header.trim_start_matches('[');
    match rest.split_once(']') {
        Some((name, _)) => name,
        None => rest,
    }
}
