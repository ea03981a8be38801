//! The type of a control message, in the first half of its first byte (RFC 9301 section 5.1).

ghost use Rattle.std.specs.Prelude.{◌≡◌};
ghost use Rattle.lisp_requests.specs.MessageType.{is_request};

use crate::encapsulated::ENCAPSULATED;
use crate::request::MAP_REQUEST;

/// Whether a message is by its type a Map-Request, 1, or an Encapsulated Control Message, 8, which may have one inside it (RFC 9301
/// section 5.1). Whether the rest of it is well-formed is left open.
pub fn is_request(message: &[u8]) -> bool
    ensures { result ≡ is_request message.now }
{
    let Some(first) = message.first() else {
        return false;
    };
    let kind = *first / 16;
    kind == MAP_REQUEST || kind == ENCAPSULATED
}
