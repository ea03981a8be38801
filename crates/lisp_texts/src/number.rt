//! Decimal numbers as text.

ghost use Rattle.std.specs.Prelude.{◌≡◌};
ghost use Rattle.std.specs.List.{list_all};
ghost use Rattle.std.specs.Char.{is_ascii_digit};
ghost use Rattle.lisp_texts.specs.Number.{number_of};
ghost use Rattle.lisp_texts.specs.Reading.{number_below};

/// The number that 1 to 20 decimal digits stand for; leading zeros are allowed. `None` for any other
/// text, and above 2^64 - 1.
pub fn number_from_text(text: &str) -> Option<u64>
    ensures { result ≡ number_of text.now }
{
    if text.is_empty() || text.len() > 20 || !are_digits(text.as_bytes()) {
        return None;
    }
    text.parse::<u64>().ok()
}

/// The number from 0 to 255 that decimal digits stand for; leading zeros are allowed.
#[tactic(auto, unfolding(crate::specs::Reading::number_below))]
pub(crate) fn byte_from_text(text: &str) -> Option<u8>
    ensures { result ≡ number_below 256 text.now }
{
    u8::try_from(number_from_text(text)?).ok()
}

fn are_digits(text: &[u8]) -> bool
    ensures { result ≡ list_all is_ascii_digit text.now }
{
    text.iter().all(|c| c.is_ascii_digit())
}
