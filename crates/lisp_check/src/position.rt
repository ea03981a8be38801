//! Lines and columns of a text.

ghost use Rattle.std.specs.Prelude.{◌≡◌, ◌+◌, ◌==◌, not, take, count_by};
ghost use Rattle.std.specs.Int.{is_in_range};

/// A place in a text. Both numbers are counted from 1; a column counts characters.
#[derive(Clone, Copy)]
pub struct Position {
    pub line: usize,
    pub column: usize,
}

/// Where in the text stands what is behind so many bytes of it; its end where it has fewer.
pub fn position_at(text: &str, offset: usize) -> Position
    ensures line { result.line ≡ 1 + count_by (λ b. b == 10) (take offset text.now) }
{
    let before = first_bytes(text.as_bytes(), offset);
    Position {
        line: 1 + line_feeds(before),
        column: 1 + characters(last_line(before)),
    }
}

fn first_bytes(bytes: &[u8], count: usize) -> &[u8]
    ensures { result.now ≡ take count bytes.now }
{
    &bytes[..count.min(bytes.len())]
}

fn line_feeds(bytes: &[u8]) -> usize
    ensures { result ≡ count_by (λ b. b == 10) bytes.now }
{
    bytes.iter().filter(|byte| **byte == b'\n').count()
}

// What stands behind the last line feed.
fn last_line(bytes: &[u8]) -> &[u8] {
    match bytes.iter().rposition(|byte| *byte == b'\n') {
        Some(place) => &bytes[place + 1..],
        None => bytes,
    }
}

// How many characters UTF-8 bytes are: the bytes that go on with a character don't count.
fn characters(bytes: &[u8]) -> usize
    ensures { result ≡ count_by (λ b. not (is_in_range 128 191 b)) bytes.now }
{
    bytes
        .iter()
        .filter(|byte| !matches!(**byte, 0x80..=0xbf))
        .count()
}
