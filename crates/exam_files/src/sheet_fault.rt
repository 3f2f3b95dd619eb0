//! Why a sheet was not written.
ghost use Rattle.std.specs.Prelude.{◌≡◌};
ghost use Rattle.exam_files.specs.declared.sheet_fault.SheetFault.TheVariants.{Refused};

use exam_types::Refusal;

/// Why a sheet was not written.
#[derive(Clone, Copy, Debug, PartialEq, Eq)]
pub enum SheetFault {
    /// The sheet is refused. Nothing was written, except that `register_stream` may have written a beginning.
    Refused(Refusal),
    /// The writer failed or took no byte. A beginning of the sheet was written, perhaps nothing.
    Write,
}

impl From<Refusal> for SheetFault {
    ghost from_gives = { λ refusal fault. fault ≡ Refused refusal };

    fn from(refusal: Refusal) -> SheetFault {
        SheetFault::Refused(refusal)
    }
}
