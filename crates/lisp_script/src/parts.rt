//! The two parts of an input.

ghost use Rattle.std.specs.Prelude.{◌≡◌, ◌++◌};
ghost use Rattle.std.specs.Option.{option_map};
ghost use Rattle.lisp_script.specs.Parts.{IsEndOf, is_mark, parted};

/// The text before the first line `---`, and the text behind that line; `None` where no line is `---`.
pub(crate) fn parted(text: &str) -> Option<(&str, &str)>
    ensures { option_map (λ p. (p.0.now, p.1.now)) result ≡ parted text.now }
{
    let mut rest = text;
    while let Some((line, behind)) = rest.split_once('\n') {
        if is_mark(line) {
            return Some((before(text, rest), behind));
        }
        rest = behind;
    }
    is_mark(rest).then_some((before(text, rest), ""))
}

// Whether a line parts the configuration from the script.
fn is_mark(line: &str) -> bool
    ensures { result ≡ is_mark line.now }
{
    line == "---" || line == "---\r"
}

// The text before the rest of it.
fn before<'a>(text: &'a str, rest: &str) -> &'a str
    requires { IsEndOf text.now rest.now }
    ensures { text.now ≡ result.now ++ rest.now }
{
    text.split_at(text.len() - rest.len()).0
}
