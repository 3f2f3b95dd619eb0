//! The one loop that writes bytes to a writer.
ghost use Rattle.std.specs.Prelude.{◌++◌, OnOk, OnErr};
ghost use Rattle.std.specs.Io.KnownBytes.{Appends};
ghost use Rattle.exam_send.specs.Sending.{AppendsPart};

use std::io::Write;

/// A write failed, also one that was interrupted, or the writer took no byte.
#[derive(Clone, Copy, Debug, PartialEq, Eq)]
pub struct WriteFailed;

/// Writes `these`, and then `those`. After a failure a beginning of them, but not all, is written. Does not flush.
pub fn send_both<W: Write>(writer: &mut W, these: &[u8], those: &[u8]) -> Result<(), WriteFailed>
    ensures ok { OnOk result
        (Appends (W.contents writer.old) (W.contents writer.new) (these.now ++ those.now)) }
    ensures err { OnErr result
        (AppendsPart (W.contents writer.old) (W.contents writer.new) (these.now ++ those.now)) }
{
    send(writer, these)?;
    send(writer, those)
}

/// Writes all of the bytes, in as many writes as it takes. After a failure a beginning of them, but not all, is
/// written. Does not flush, and does not repeat a write that was interrupted.
pub fn send<W: Write>(writer: &mut W, bytes: &[u8]) -> Result<(), WriteFailed>
    ensures ok { OnOk result (Appends (W.contents writer.old) (W.contents writer.new) bytes.now) }
    ensures err { OnErr result (AppendsPart (W.contents writer.old) (W.contents writer.new) bytes.now) }
{
    let mut sent = 0;
    while sent < bytes.len() {
        match writer.write(&bytes[sent..]) {
            Ok(0) => return Err(WriteFailed),
            Ok(count) => sent += count,
            Err(_) => return Err(WriteFailed),
        }
    }
    Ok(())
}
