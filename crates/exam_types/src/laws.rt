//! Laws of the public names: which bytes are read as a value of each, with its lengths as numbers.
ghost use Rattle.std.specs.Prelude.{◌≡◌, IfOk, IfErr, IsTrue, Some, None, if◌then◌else◌};
ghost use Rattle.exam_types.specs.Codes.{is_access_code, is_hall_code, is_paper_code, is_reference};
ghost use Rattle.exam_types.specs.Codes.{is_session_code};
ghost use Rattle.exam_types.specs.Texts.{is_name, is_reason};
ghost use Rattle.exam_types.specs.declared.refusal.Refusal.TheVariants.{NoMemory};

use crate::codes::{AccessCode, HallCode, PaperCode, Reference, SessionCode};
use crate::refusal::Refusal;
use crate::text::{Name, Reason};
use std::alloc::Global;

/// 1 to 12 capitals, digits and dashes are a session code.
pub fn session_code_of(bytes: &[u8]) -> Option<SessionCode>
    ensures { result ≡ (if is_session_code bytes.now then Some bytes.now else None) }
{
    SessionCode::parse(bytes)
}

/// 1 to 12 capitals, digits and dashes are a paper code.
pub fn paper_code_of(bytes: &[u8]) -> Option<PaperCode>
    ensures { result ≡ (if is_paper_code bytes.now then Some bytes.now else None) }
{
    PaperCode::parse(bytes)
}

/// 1 to 8 capitals and digits are a hall code.
pub fn hall_code_of(bytes: &[u8]) -> Option<HallCode>
    ensures { result ≡ (if is_hall_code bytes.now then Some bytes.now else None) }
{
    HallCode::parse(bytes)
}

/// 1 to 16 capitals and digits are a reference.
pub fn reference_of(bytes: &[u8]) -> Option<Reference>
    ensures { result ≡ (if is_reference bytes.now then Some bytes.now else None) }
{
    Reference::parse(bytes)
}

/// 8 to 16 capitals and digits are an access code.
pub fn access_code_of(bytes: &[u8]) -> Option<AccessCode>
    ensures { result ≡ (if is_access_code bytes.now then Some bytes.now else None) }
{
    AccessCode::parse(bytes)
}

/// 1 to 80 bytes of UTF-8 with no control character below U+0080 are a name. Refused if there is not enough memory, but
/// only if the bytes are a name.
pub fn name_of(alloc: Global, bytes: &[u8]) -> Result<Option<Name>, Refusal>
    ensures ok { IfOk result (λ name. name ≡ (if is_name bytes.now then Some bytes.now else None)) }
    ensures memory { IfErr result (λ e. (e ≡ NoMemory) × IsTrue (is_name bytes.now)) }
{
    Name::parse(alloc, bytes)
}

/// 0 to 200 bytes of UTF-8 with no control character below U+0080 are a reason. Refused if there is not enough memory,
/// but only if the bytes are a reason.
pub fn reason_of(alloc: Global, bytes: &[u8]) -> Result<Option<Reason>, Refusal>
    ensures ok { IfOk result (λ reason. reason ≡ (if is_reason bytes.now then Some bytes.now else None)) }
    ensures memory { IfErr result (λ e. (e ≡ NoMemory) × IsTrue (is_reason bytes.now)) }
{
    Reason::parse(alloc, bytes)
}
