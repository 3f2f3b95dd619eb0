//! Pieces of a sheet's text.
ghost use Rattle.std.specs.Prelude.{◌≡◌, ◌++◌, OnOk, IsTrue, replicate};
ghost use Rattle.std.specs.List.{list_all};
ghost use Rattle.std.specs.Fmt.{decimal};
ghost use Rattle.exam_files.specs.Padding.{left_in, right_in};
ghost use Rattle.exam_files.specs.Places.{hall_word, desk_word};
ghost use Rattle.exam_types.specs.Codes.{is_dashed};
ghost use Rattle.exam_types.specs.Refusals.{OnlyMemory};

use exam_types::{HallCode, Refusal, append};
use itoa::{Buffer, Integer};

/// Appends a number in decimal.
pub fn push_decimal<I: Integer>(text: &mut Vec<u8>, number: I) -> Result<(), Refusal>
    ensures ok { OnOk result (text.new.items ≡ text.old.items ++ I.text number) }
    ensures memory { OnlyMemory result }
{
    let mut buffer = Buffer::new();
    append(text, buffer.format(number).as_bytes())
}

/// Appends a number in decimal, with spaces on the left up to the width.
pub fn push_right(text: &mut Vec<u8>, width: usize, number: u32) -> Result<(), Refusal>
    ensures ok { OnOk result (text.new.items ≡ text.old.items ++ right_in width (decimal number)) }
    ensures memory { OnlyMemory result }
{
    let mut buffer = Buffer::new();
    push_word_right(text, width, buffer.format(number).as_bytes())
}

/// Appends a word, with spaces on the left up to the width.
fn push_word_right(text: &mut Vec<u8>, width: usize, word: &[u8]) -> Result<(), Refusal>
    ensures ok { OnOk result (text.new.items ≡ text.old.items ++ right_in width word.now) }
    ensures memory { OnlyMemory result }
{
    push_spaces(text, width.saturating_sub(word.len()))?;
    append(text, word)?;
    Ok(())
}

/// Appends the desk number, or a dash if there is none, with spaces on the left up to the width.
pub fn push_desk(text: &mut Vec<u8>, width: usize, desk: Option<u32>) -> Result<(), Refusal>
    ensures ok { OnOk result (text.new.items ≡ text.old.items ++ right_in width (desk_word desk)) }
    ensures memory { OnlyMemory result }
{
    let mut buffer = Buffer::new();
    push_word_right(text, width, desk_bytes(&mut buffer, desk))
}

/// The desk number in decimal, or a dash if there is none.
pub fn desk_bytes(buffer: &mut Buffer, desk: Option<u32>) -> &[u8]
    ensures value { result.now ≡ desk_word desk }
    ensures form { IsTrue (list_all is_dashed result.now) }
{
    match desk {
        Some(number) => buffer.format(number).as_bytes(),
        None => b"-",
    }
}

/// The bytes of the hall's code, or a dash if there is none.
pub fn hall_bytes(hall: &Option<HallCode>) -> &[u8]
    ensures value { result.now ≡ hall_word hall.now }
    ensures form { IsTrue (list_all is_dashed result.now) }
{
    match hall {
        Some(code) => code.as_bytes(),
        None => b"-",
    }
}

/// Appends the bytes, with spaces on the right up to the width.
pub fn push_left(text: &mut Vec<u8>, width: usize, bytes: &[u8]) -> Result<(), Refusal>
    ensures ok { OnOk result (text.new.items ≡ text.old.items ++ left_in width bytes.now) }
    ensures memory { OnlyMemory result }
{
    append(text, bytes)?;
    push_spaces(text, width.saturating_sub(bytes.len()))?;
    Ok(())
}

fn push_spaces(text: &mut Vec<u8>, count: usize) -> Result<(), Refusal>
    ensures ok { OnOk result (text.new.items ≡ text.old.items ++ replicate count 32) }
    ensures memory { OnlyMemory result }
{
    for _space in 0..count {
        text.push(b' ')?;
    }
    Ok(())
}
