//! Laws of files that hold an office.
ghost use Rattle.exam_program.specs.Files.{LinesLead, ShowTheirOffice};

use exam_office::one_step_has_one_result;
use sqlite_disk::Disk;
use std::io::Write;

/// Files that `run_database` gave back show the office that they hold to the next connection.
pub fn files_show_their_office<D: Disk + Drop>()
    ensures { ShowTheirOffice D.Disk }
{}

/// Lines follow one another, each over the files that the one before it gave back: whatever they are, each finds the
/// office that the files hold, in its version, and leaves one. An office that is opened is one of the newest version,
/// and the files hold it after the line; any other line leaves the office as it is, and `migrate` may bring it to that
/// version.
pub fn lines_lead_an_office_on<D: Disk + Drop, O: Write, E: Write>()
    ensures { LinesLead D.Disk O.contents E.contents }
{
    one_step_has_one_result();
}
