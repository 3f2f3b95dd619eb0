//! Comparing a secret.
ghost use Rattle.std.specs.Prelude.{◌≡◌, ◌↔◌, IsTrue, length, slice_index_or};
ghost use Rattle.std.specs.Str.{bytes_eq};

/// Whether the given bytes are the secret. Compares every given byte, so that the time tells as little as possible of
/// how many of them are right.
pub fn is_secret(given: &[u8], secret: &[u8]) -> bool
    ensures decides { IsTrue result ↔ (given.now ≡ secret.now) }
    ensures value { result ≡ bytes_eq given.now secret.now }
{
    let same_length = given.len() == secret.len();
    let same_bytes = differences(given, secret) == 0;
    same_length & same_bytes
}

/// All bits by which the given bytes differ from those at the same places of the secret.
fn differences(given: &[u8], secret: &[u8]) -> u8
    ensures { length given.now ≡ length secret.now → (result ≡ 0) ↔ (given.now ≡ secret.now) }
{
    let mut found = 0;
    let mut index = 0;
    for byte in given {
        found |= *byte ^ byte_at(secret, index);
        index += 1;
    }
    found
}

/// The byte at a place, or 0 after the end.
fn byte_at(bytes: &[u8], index: usize) -> u8
    ensures { result ≡ slice_index_or bytes.now index 0 }
{
    bytes.get(index).copied().unwrap_or(0)
}
