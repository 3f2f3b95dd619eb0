//! What lodgings and retractions answer, the order in which they are refused, and that they move nobody.
use super::play;
use std::test::Fail;

/// The halls A and B with a desk each. The first candidate sits in B; the second needs a step-free hall and
/// sits in A; the third is entered for two papers and sits nowhere.
const ENTERED: &str = "\
paper PH-2 S1 60 -
opening S1 A 1 12:00
opening S1 B 1 12:00
arrangement 2 step-free 0
entry 1 MA-1
entry 2 MA-1
entry 3 MA-1
entry 3 PH-2
seat S1 1 B
seat S1 2 A
";

/// The last days to lodge are 2027-05-30 for a hall, 2027-05-27 for a clash and 2027-05-22 for an arrangement.
const LODGED: &str = "\
# an appeal is lodged once
lodge 1 HA1 S1 hall B draught on 2027-05-31 > PastClosing 2027-05-30
appeals > 0
lodge 1 HA1 S1 hall B draught on 2027-05-30 > Lodged Pending
lodge 1 HA1 S1 hall B draught on 2027-05-31 > Lodged Pending
lodge 1 HA1 S1 hall A draught on 2027-05-31 > RefTaken
lodge 1 HA1 S1 hall B noise on 2027-05-31 > RefTaken
appeals > 1
seats S1 > 1 B 2 A
# each kind has its closing day
lodge 3 CL1 S1 clash PH-2 on 2027-05-28 > PastClosing 2027-05-27
lodge 2 AR1 S1 arrangement screen 0 on 2027-05-23 > PastClosing 2027-05-22
lodge 3 CL1 S1 clash PH-2 on 2027-05-27 > Lodged Pending
lodge 2 AR1 S1 arrangement screen 0 on 2027-05-22 > Lodged Pending
appeals > 2
seats S1 > 1 B 2 A
# one appeal of a kind is open
lodge 1 HA1 S1 hall B draught on 2027-05-30 > Lodged Pending
lodge 1 HA2 S1 hall B draught on 2027-05-30 > AppealStands
lodge 2 HA1 S1 hall A draught on 2027-05-30 > Lodged Pending
retract 1 HA1 > Retracted
lodge 1 HA2 S1 hall B draught on 2027-05-30 > Lodged Pending
appeals > 3
seats S1 > 1 B 2 A
# an open appeal outlasts an import
lodge 1 HA1 S1 hall B draught on 2027-05-30 > Lodged Pending
import entries 4 MA-1, 1 MA-1 > Imported 1 0 1
close-hall S1 B > Closed
lodge 1 HA1 S1 hall B draught on 2027-05-30 > Lodged Pending
appeals > 1
# a lodging is refused by the first check that fails
lodge 9 HA1 S9 hall B draught on 2027-05-30 > UnknownCandidate
lodge 1 HA1 S9 hall B draught on 2027-05-30 > NotInSession
lodge 4 HA1 S1 hall B draught on 2027-06-02 > NotInSession
lodge 1 HA1 S1 hall Z draught on 2027-05-30 > NotSeatedThere
appeals > 0
# a clash and an arrangement must change something
lodge 1 CL1 S1 clash XX on 2027-05-27 > NoClash
lodge 3 CL1 S1 clash XX on 2027-05-27 > NoEntry
lodge 3 CL1 S1 clash MA-1 on 2027-05-27 > NothingToChange
lodge 2 AR1 S1 arrangement step-free 0 on 2027-05-22 > NothingToChange
appeals > 0
# a retraction stands
retract 1 HA1 > UnknownAppeal
lodge 1 HA1 S1 hall B draught on 2027-05-30 > Lodged Pending
retract 2 HA1 > UnknownAppeal
retract 1 HA1 > Retracted
withdraw 1 MA-1 > Withdrawn
retract 1 HA1 > Retracted
lodge 1 HA1 S1 hall B draught on 2027-05-30 > Lodged Retracted
appeals > 1
";

const OF_ONE: &str = "\
# no appeal is lodged past the most that a candidate may have
opening S1 B 1 12:00
entry 1 MA-1
0..63 granted 1 R* S1 hall A
seat S1 1 B
lodge 1 HA1 S1 hall B draught on 2027-05-30 > Lodged Pending
retract 1 HA1 > Retracted
lodge 1 HA2 S1 hall B draught on 2027-05-30 > TooMany
lodge 1 HA1 S1 hall B draught on 2027-05-30 > Lodged Retracted
appeals > 64
# a granted appeal is not retracted
granted 1 HA1 S1 hall B
retract 1 HA1 > NotOpenAppeal
";

#[test]
fn lodgings_and_retractions(rt: HostRuntime) -> Result<(), Fail> {
    play(rt.alloc(), ENTERED, LODGED)?;
    play(rt.alloc(), "", OF_ONE)
}
