//! The status of an answer, and its phrase.
ghost use Rattle.std.specs.Prelude.{◌≡◌, ◌≤◌, length};
ghost use Rattle.exam_request.specs.Answer.{phrase_text, status_number};

use http::StatusCode;

/// The status of the answer to a refusal or a fault with this number; 500 for any other number.
pub fn status_of(number: u16) -> StatusCode
    ensures { result ≡ status_number number }
{
    match number {
        6 | 15 | 37 => StatusCode::NOT_FOUND,
        31 | 32 | 33 | 36 => StatusCode::BAD_REQUEST,
        38 => StatusCode::METHOD_NOT_ALLOWED,
        8 | 11..=14 | 16..=21 => StatusCode::CONFLICT,
        34 => StatusCode::PAYLOAD_TOO_LARGE,
        35 => StatusCode::NOT_IMPLEMENTED,
        22 => StatusCode::SERVICE_UNAVAILABLE,
        _ => StatusCode::INTERNAL_SERVER_ERROR,
    }
}

/// The phrase of a status, as RFC 9110, section 15, has it; `http` has an older one for 413.
pub fn phrase_of(status: StatusCode) -> &'static [u8]
    ensures value { result.now ≡ phrase_text status }
    ensures short { length result.now ≤ 21 }
{
    match status.as_u16() {
        200 => b"OK",
        400 => b"Bad Request",
        404 => b"Not Found",
        405 => b"Method Not Allowed",
        409 => b"Conflict",
        413 => b"Content Too Large",
        500 => b"Internal Server Error",
        501 => b"Not Implemented",
        503 => b"Service Unavailable",
        _ => b"",
    }
}
