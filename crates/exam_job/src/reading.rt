//! An import file, read and split into its rows.
ghost use Rattle.std.specs.Prelude.{◌≡◌, ◌<◌, ◌≤◌, length, take, IfOk, IfErr, OnErr};
ghost use Rattle.std.specs.Io.KnownBytes.{Consumes, IsAtEnd, Keeps};
ghost use Rattle.exam_job.specs.declared.report.JobFault.TheVariants.{File};
ghost use Rattle.exam_job.specs.Reading as spec;

use crate::report::JobFault;
use exam_files::{MOST_BYTES, read_import};
use exam_office::{Import, Kind};
use exam_types::append;
use std::alloc::Global;
use std::io::{ErrorKind, Read};

/// One byte more than an import file may have. A file that is too long is read only so far as to show this.
const MOST_READ: usize = MOST_BYTES + 1;

/// The most bytes that one read asks for.
const PIECE: usize = 65_536;

/// Reads an import file of the kind.
pub fn read_import_file<R: Read>(
    alloc: Global,
    kind: Kind,
    reader: &mut R,
) -> Result<Import, JobFault>
    ensures { spec.ReadsImport kind (R.remaining reader.old) (R.remaining reader.new) result }
{
    let bytes = read_file(alloc, reader)?;
    Ok(read_import(alloc, kind, bytes.as_slice())?)
}

/// The bytes of a file; if it is too long, only its first bytes.
fn read_file<R: Read>(alloc: Global, reader: &mut R) -> Result<Vec<u8>, JobFault>
    ensures ok { IfOk result (λ bytes.
        spec.ReadsAll (R.remaining reader.old) (R.remaining reader.new) bytes.items) }
    ensures err { IfErr result spec.IsReadFault }
    ensures read { OnErr result (spec.Reads (R.remaining reader.old) (R.remaining reader.new)) }
{
    let mut bytes = Vec::new(alloc);
    let mut piece = [0; PIECE];
    while bytes.len() < MOST_READ {
        let room = PIECE.min(MOST_READ - bytes.len());
        let count = read_piece(reader, &mut piece[..room])?;
        if count == 0 {
            return Ok(bytes);
        }
        append(&mut bytes, &piece[..count])?;
    }
    Ok(bytes)
}

/// How many bytes one read gave; none at the end of the file. Repeats a read that is interrupted.
fn read_piece<R: Read>(reader: &mut R, piece: &mut [u8]) -> Result<usize, JobFault>
    requires { 0 < length piece.old }
    ensures bound { IfOk result (λ count. count ≤ length piece.new) }
    ensures given { IfOk result (λ count.
        Consumes (R.remaining reader.old) (R.remaining reader.new) (take count piece.new)) }
    ensures end { IfOk result (λ count. count ≡ 0 → IsAtEnd (R.remaining reader.new)) }
    ensures err { IfErr result (λ fault. fault ≡ File) }
    ensures kept { OnErr result (Keeps (R.remaining reader.old) (R.remaining reader.new)) }
{
    'tries: for _ in 0..u64::MAX {
        match reader.read(piece) {
            Ok(count) => return Ok(count),
            Err(fault) => {
                if fault.kind() != ErrorKind::Interrupted {
                    break;
                }
            }
        }
    }
    Err(JobFault::File)
}
