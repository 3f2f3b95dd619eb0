//! The texts of names, titles and reasons, and how bytes are appended.
ghost use Rattle.std.specs.Prelude.{◌≡◌, ◌++◌, false, nat_eq, IsTrue, IfSome, IfNone, IfOk, IfErr, OnOk};
ghost use Rattle.std.specs.Prelude.{OnErr, Some, None, if◌then◌else◌};
ghost use Rattle.std.specs.Cmp.{partial_equiv_from_equiv};
ghost use Rattle.std.specs.Cmp.Lexicographic.{pointwise, nat_list_eq_equiv};
ghost use Rattle.std.specs.Str.{is_utf8};
ghost use Rattle.exam_types.specs.Texts.{has_control as spec_has_control, is_text};
ghost use Rattle.exam_types.specs.declared.refusal.Refusal.TheVariants.{NoMemory};
ghost use Rattle.exam_types.specs.Refusals.{OnlyMemory};

use crate::refusal::Refusal;
use std::alloc::{AllocError, Global};
use std::marker::Model;
use std::str;

/// The length of the shortest name, in bytes.
const SHORTEST_NAME: usize = 1;

/// The length of the longest name, in bytes.
const LONGEST_NAME: usize = 80;

/// The name of a candidate, or the title of a paper or a hall: 1 to 80 bytes.
pub type Name = Text<SHORTEST_NAME, LONGEST_NAME>;

/// The length of the shortest reason, in bytes.
const SHORTEST_REASON: usize = 0;

/// The length of the longest reason, in bytes.
const LONGEST_REASON: usize = 200;

/// Why an appeal was lodged, or why it was decided as it was: 0 to 200 bytes.
pub type Reason = Text<SHORTEST_REASON, LONGEST_REASON>;

/// `LEAST` to `GREATEST` bytes of UTF-8 with no control character below U+0080. Contracts see the bytes.
#[derive(Drop)]
pub struct Text<const LEAST: usize, const GREATEST: usize> {
    text: String,
}

impl<const LEAST: usize, const GREATEST: usize> Model for Text<LEAST, GREATEST> {
    ghost use Rattle.std.specs.Prelude.{ℕ, List, IsTrue};
    ghost use Rattle.std.specs.String.{string_bytes};
    ghost use Rattle.exam_types.specs.Texts.{is_text};

    ghost Value = { List ℕ };

    ghost view = { λ a. string_bytes a.text };

    ghost invariant = { λ a. IsTrue (is_text LEAST GREATEST (string_bytes a.text)) };
}

impl<const LEAST: usize, const GREATEST: usize> Text<LEAST, GREATEST> {
    /// The text that these bytes are, or none. Refused if there is not enough memory, but only if the bytes are a text.
    pub fn parse(alloc: Global, bytes: &[u8]) -> Result<Option<Self>, Refusal>
        ensures ok { IfOk result (λ text. text
            ≡ (if is_text LEAST GREATEST bytes.now then Some bytes.now else None)) }
        ensures memory { IfErr result (λ e. (e ≡ NoMemory) × IsTrue (is_text LEAST GREATEST bytes.now)) }
    {
        match plain_text(bytes, LEAST, GREATEST) {
            Some(text) => Ok(Some(Text {
                text: String::from_str(alloc, text)?,
            })),
            None => Ok(None),
        }
    }

    /// Appends the bytes. Refused if there is not enough memory; the vector then stays as it was.
    pub fn write_to(&self, out: &mut Vec<u8>) -> Result<(), Refusal>
        ensures ok { OnOk result (out.new.items ≡ out.old.items ++ self.now) }
        ensures form { IsTrue (is_text LEAST GREATEST self.now) }
        ensures err { OnErr result (out.new.items ≡ out.old.items) }
        ensures memory { OnlyMemory result }
    {
        append(out, self.text.as_bytes())
    }

    /// An equal text. Refused if there is not enough memory.
    pub fn copy(&self) -> Result<Self, Refusal>
        ensures ok { IfOk result (λ text. text ≡ self.now) }
        ensures memory { OnlyMemory result }
    {
        Ok(self.clone()?)
    }

    /// The text.
    pub fn as_str(&self) -> &str
        ensures value { result.now ≡ self.now }
        ensures form { IsTrue (is_text LEAST GREATEST self.now) }
    {
        self.text.as_str()
    }
}

impl<const LEAST: usize, const GREATEST: usize> Clone for Text<LEAST, GREATEST> {
    ghost is_clone = { λ source copy. copy ≡ source };

    fn clone(&self) -> Result<Self, AllocError> {
        Ok(Text {
            text: self.text.clone()?,
        })
    }
}

impl<const LEAST: usize, const GREATEST: usize> PartialEq for Text<LEAST, GREATEST> {
    ghost eq = { pointwise nat_eq };

    ghost laws = { partial_equiv_from_equiv nat_list_eq_equiv };

    fn eq(&self, other: &Self) -> bool {
        self.text.as_bytes() == other.text.as_bytes()
    }
}

impl<const LEAST: usize, const GREATEST: usize> Eq for Text<LEAST, GREATEST> {
    ghost laws = { nat_list_eq_equiv };
}

/// The bytes as text, or none if they are not `low` to `high` bytes of UTF-8 with no control character below U+0080.
fn plain_text(bytes: &[u8], low: usize, high: usize) -> Option<&str>
    ensures some { IfSome result (λ text. (text.now ≡ bytes.now) × IsTrue (is_text low high bytes.now)) }
    ensures none { IfNone result (is_text low high bytes.now ≡ false) }
{
    if bytes.len() < low || high < bytes.len() || has_control(bytes) {
        return None;
    }
    text_of(bytes)
}

fn has_control(bytes: &[u8]) -> bool
    ensures { result ≡ spec_has_control bytes.now }
{
    bytes.iter().any(|b| *b < 32 || *b == 127)
}

/// The bytes as text, or none if they are not UTF-8.
pub fn text_of(bytes: &[u8]) -> Option<&str>
    ensures some { IfSome result (λ text. (text.now ≡ bytes.now) × IsTrue (is_utf8 bytes.now)) }
    ensures none { IfNone result (is_utf8 bytes.now ≡ false) }
{
    match str::from_utf8(bytes) {
        Ok(text) => Some(text),
        Err(_) => None,
    }
}

/// Appends the bytes. Refused if there is not enough memory; the vector then stays as it was.
pub fn append(out: &mut Vec<u8>, bytes: &[u8]) -> Result<(), Refusal>
    ensures ok { OnOk result (out.new.items ≡ out.old.items ++ bytes.now) }
    ensures err { OnErr result (out.new.items ≡ out.old.items) }
    ensures memory { OnlyMemory result }
{
    Ok(out.extend_from_slice(bytes)?)
}
