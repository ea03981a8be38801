//! The text of a nonce in a file.

ghost use Rattle.std.specs.Prelude.{◌≡◌, IfSome, length};
ghost use Rattle.lisp_store.specs.NonceText.{last_digits, nonce_text, FindsNonce};

/// What stands before the digits of a nonce.
const FRONT: usize = 6;

/// The digits of a nonce.
const DIGITS: usize = 20;

/// The text of a nonce: `nonce `, its 20 decimal digits with leading zeros, and a line feed.
pub fn nonce_text(nonce: u64) -> [u8; 27]
    ensures { result ≡ nonce_text nonce }
{
    let mut text = *b"nonce 00000000000000000000\n";
    put_digits(&mut text[FRONT..FRONT + DIGITS], nonce);
    text
}

/// The nonce whose text this is, `None` where it is the text of none.
pub fn nonce_from_text(text: &[u8]) -> Option<u64>
    ensures text { IfSome result (λ nonce. text.now ≡ nonce_text nonce) }
    ensures only { FindsNonce text.now result }
{
    let digits = text.get(FRONT..FRONT + DIGITS)?;
    let Ok(digits) = str::from_utf8(digits) else {
        return None;
    };
    let Ok(nonce) = digits.parse() else {
        return None;
    };
    (text == nonce_text(nonce).as_slice()).then_some(nonce)
}

// Writes the last digits of a number over a text.
fn put_digits(digits: &mut [u8], number: u64)
    ensures { digits.new ≡ last_digits (length digits.old) number }
{
    if let Some((last, front)) = digits.split_last_mut() {
        *last = b'0' + (number % 10) as u8;
        put_digits(front, number / 10);
    }
}
