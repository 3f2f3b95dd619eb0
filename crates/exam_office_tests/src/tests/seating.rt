//! Who sits where after an import.
use super::play;
use exam_school::OPENED;
use std::test::Fail;

/// In the second story the halls A, B and C hold two of three needs each, and each of three candidates has one of them.
/// In the fifth a granted appeal bars the first from the free hall B, so another entry changes nothing for them. In the
/// last the first sits PH-2, which requires a computer, by a granted clash appeal, and the third was granted the need
/// of a screen.
const SEATED: &str = "\
# a need moves another by a chain
import entries 1 MA-1 > Imported 1 0 0
seats S1 > 1 A
import arrangements 2 step-free 0 > Imported 1 0 0
import entries 2 MA-1 > Imported 1 0 0
seats S1 > 1 B 2 A
import entries 3 MA-1 > Imported 1 0 0
seats S1 > 1 B 2 A
# of two equally short chains the least is taken
hall A step-free+reader
hall B screen+reader
hall C step-free+screen
opening S1 C 1 12:00
arrangement 1 step-free 0
arrangement 2 screen 0
arrangement 3 reader 0
import entries 1 MA-1, 2 MA-1, 3 MA-1 > Imported 3 0 0
seats S1 > 1 C 2 B 3 A
# an import again answers that all is the same
import entries 1 MA-1, 2 MA-1 > Imported 2 0 0
import entries 1 MA-1, 2 MA-1 > Imported 0 0 2
seats S1 > 1 A 2 B
# one import seats in two sessions
session S2 2027-06-01
paper PH-2 S2 60 -
opening S2 B 1 12:00
import entries 1 MA-1, 1 PH-2 > Imported 2 0 0
seats S1 > 1 A
seats S2 > 1 B
# an import repairs by the appeals that were granted
arrangement 2 step-free 0
entry 1 MA-1
entry 2 MA-1
granted 1 HA1 S1 hall B
seat S1 2 A
import entries 3 MA-1 > Imported 1 0 0
seats S1 > 2 A 3 B
import openings S1 A 2 12:00 > Imported 0 1 0
seats S1 > 1 A 2 A 3 B
# granted papers and needs decide which hall fits
candidate 6
paper PH-2 S1 60 computer
hall C computer
opening S1 C 1 12:00
granted 1 CL1 S1 clash PH-2
granted 3 AR1 S1 arrangement screen 0
import entries 1 PH-2 > Imported 1 0 0
import entries 1 MA-1, 3 MA-1 > Imported 2 0 0
seats S1 > 1 C
";

const IN_ONE_HALL: &str = "\
# fewer desks put the greatest number out
opening S1 A 2 12:00
import entries 1 MA-1, 4 MA-1 > Imported 2 0 0
seats S1 > 1 A 4 A
import openings S1 A 1 12:00 > Imported 0 1 0
seats S1 > 1 A
# who sits stays where one desk is too few
opening S1 A 1 12:00
import entries 2 MA-1 > Imported 1 0 0
import entries 1 MA-1 > Imported 1 0 0
seats S1 > 2 A
";

#[test]
fn imports_seat(rt: HostRuntime) -> Result<(), Fail> {
    play(rt.alloc(), OPENED, SEATED)?;
    play(rt.alloc(), "", IN_ONE_HALL)
}
