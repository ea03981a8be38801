//! What a place of a TOML text is in.

ghost use Rattle.std.specs.Prelude.{◌≡◌};
ghost use Rattle.lisp_check.specs.Mode.{step, is_start, at_start, in_line, in_comment, is_escape, in_text, in_long};

/// What a place of a text is in, by the bytes before it. A string is told by the quotes that it stands in.
#[derive(Clone, Copy)]
pub enum Mode {
    /// A line, behind blanks alone.
    Start,
    /// A line, behind more than blanks.
    Line,
    /// A comment.
    Comment,
    /// One or two quotes that a string begins with.
    Opened { quote: u8 },
    OpenedTwice { quote: u8 },
    /// A string of one line, and a backslash in it.
    Text { quote: u8 },
    TextEscape,
    /// A string of lines, one or two quotes in it, and a backslash in it.
    Long { quote: u8 },
    LongOnce { quote: u8 },
    LongTwice { quote: u8 },
    LongEscape,
    /// Behind such a string, to which further quotes belong.
    Closed { quote: u8 },
}

impl Mode {
    /// Whether only blanks stand before on the line.
    pub(crate) fn is_start(self) -> bool
        ensures { result ≡ is_start self }
    {
        matches!(self, Mode::Start)
    }

    /// What is behind one more byte.
    pub(crate) fn step(self, byte: u8) -> Mode
        ensures { result ≡ step self byte }
    {
        match self {
            Mode::Start => at_start(byte),
            Mode::Line => in_line(byte),
            Mode::Comment => in_comment(byte),
            Mode::Opened { quote } => if byte == quote {
                Mode::OpenedTwice { quote }
            } else {
                in_text(quote, byte)
            },
            Mode::OpenedTwice { quote } => if byte == quote {
                Mode::Long { quote }
            } else {
                in_line(byte)
            },
            Mode::Text { quote } => in_text(quote, byte),
            Mode::TextEscape => Mode::Text { quote: b'"' },
            Mode::Long { quote } => in_long(quote, byte, Mode::LongOnce { quote }),
            Mode::LongOnce { quote } => in_long(quote, byte, Mode::LongTwice { quote }),
            Mode::LongTwice { quote } => in_long(quote, byte, Mode::Closed { quote }),
            Mode::LongEscape => Mode::Long { quote: b'"' },
            Mode::Closed { quote } => if byte == quote {
                Mode::Closed { quote }
            } else {
                in_line(byte)
            },
        }
    }
}

// Blanks and ends of lines leave a line at its start.
fn at_start(byte: u8) -> Mode
    ensures { result ≡ at_start byte }
{
    match byte {
        b' ' | b'\t' | b'\r' => Mode::Start,
        _ => in_line(byte),
    }
}

fn in_line(byte: u8) -> Mode
    ensures { result ≡ in_line byte }
{
    match byte {
        b'\n' => Mode::Start,
        b'#' => Mode::Comment,
        b'"' | b'\'' => Mode::Opened { quote: byte },
        _ => Mode::Line,
    }
}

fn in_comment(byte: u8) -> Mode
    ensures { result ≡ in_comment byte }
{
    if byte == b'\n' {
        Mode::Start
    } else {
        Mode::Comment
    }
}

fn is_escape(quote: u8, byte: u8) -> bool
    ensures { result ≡ is_escape quote byte }
{
    byte == b'\\' && quote == b'"'
}

fn in_text(quote: u8, byte: u8) -> Mode
    ensures { result ≡ in_text quote byte }
{
    if byte == quote {
        Mode::Line
    } else if is_escape(quote, byte) {
        Mode::TextEscape
    } else {
        Mode::Text { quote }
    }
}

fn in_long(quote: u8, byte: u8, further: Mode) -> Mode
    ensures { result ≡ in_long quote byte further }
{
    if byte == quote {
        further
    } else if is_escape(quote, byte) {
        Mode::LongEscape
    } else {
        Mode::Long { quote }
    }
}
