//! Decimal digits, read and written.
ghost use Rattle.std.specs.Prelude.{◌≡◌, ◌≤◌, ◌<◌, ◌+◌, ◌↔◌, ◌^◌, ◌++◌, ℕ, length, Some, None, IfSome};
ghost use Rattle.std.specs.Prelude.{if◌then◌else◌};
ghost use Rattle.std.specs.List.{list_all};
ghost use Rattle.std.specs.Fmt.{decimal};
ghost use Rattle.arrayvec.specs.ArrayVec.{array_vec_len};
ghost use Rattle.exam_types.specs.Digits as spec;

use arrayvec::ArrayVec;

/// Room for the longest text of digits and separators, that of a day.
pub type ShortText = ArrayVec<u8, 16>;

/// The number that the bytes spell, or none if one of them is no digit.
pub fn number_of(bytes: &[u8]) -> Option<u32>
    requires { length bytes.now ≤ 9 }
    ensures value { result ≡ spec.number_of bytes.now }
    ensures bound { IfSome result (λ n. n < 10 ^ length bytes.now) }
{
    let mut number = 0;
    for byte in bytes {
        if !byte.is_ascii_digit() {
            return None;
        }
        number = number * 10 + u32::from(*byte - b'0');
    }
    Some(number)
}

/// Appends the last `count` digits of the number.
pub fn push_digits(text: &mut ShortText, count: usize, number: u32)
    requires { array_vec_len text.old + count ≤ 16 }
    ensures text { text.new.items ≡ text.old.items ++ spec.digits count number }
    ensures len { array_vec_len text.new ≡ array_vec_len text.old + count }
{
    if count == 0 {
        return;
    }
    push_digits(text, count - 1, number / 10);
    text.push(b'0' + (number % 10) as u8);
}
