//! What decisions make of appeals, and how they are refused.
use super::play;
use std::test::Fail;

/// The first two candidates are entered, and the third is not. The first has a granted hall appeal already.
const LODGED: &str = "\
entry 1 MA-1
entry 2 MA-1
lodged 1 HA1 S1 hall B
granted 1 HA2 S1 hall A
lodged 3 HA1 S1 hall A
lodged 2 CL1 S1 clash MA-1
";

/// The last day to decide is 2027-05-31.
const DECIDED: &str = "\
# a decision is made once and before the day of the session
decide 1 HA1 granted on 2027-06-01 > TooLate
decide 1 HA1 granted on 2027-05-31 > Decided Granted - 0
decide 1 HA1 granted on 2027-05-31 > Unchanged
decide 1 HA1 granted on 2027-06-02 > Unchanged
decide 1 HA1 refused on 2027-06-02 > NotOpenAppeal
decide 1 XX granted on 2027-05-31 > UnknownAppeal
# who left the session is granted nothing
decide 3 HA1 granted on 2027-05-31 > NotInSession
decide 3 HA1 refused on 2027-05-31 > Decided Refused - 0
# hall grants add up
decide 1 HA1 granted on 2027-05-31 > Decided Granted - 0
state 1 HA2 > Granted
state 3 HA1 > Pending
";

/// In the first story the first candidate has withdrawn from PH-2. Both have a granted arrangement, and the first has
/// another one open. In the second one the second candidate needs hall A.
const GRANTED: &str = "\
# a second arrangement grant supersedes the first
paper PH-2 S1 60 -
entry 1 MA-1
withdrawn 1 PH-2
granted 1 AR1 S1 arrangement screen 0
granted 1 CL1 S1 clash MA-1
granted 2 AR1 S1 arrangement screen 0
lodged 1 AR2 S1 arrangement reader 0
lodged 1 CL2 S1 clash PH-2
decide 1 AR2 granted on 2027-05-31 > Decided Granted - 0
decide 1 AR1 granted on 2027-05-31 > NotOpenAppeal
decide 1 CL2 granted on 2027-05-31 > NoEntry
state 1 AR1 > Superseded
state 1 AR2 > Granted
state 1 CL1 > Granted
state 2 AR1 > Granted
# a grant unseats nobody but the appellant
opening S1 A 1 12:00
opening S1 B 1 12:00
arrangement 2 step-free 0
entry 1 MA-1
entry 2 MA-1
lodged 1 HA1 S1 hall B
seat S1 1 B
seat S1 2 A
decide 1 HA1 granted on 2027-05-31 > Decided Granted - 0
seats S1 > 2 A
withdraw 2 MA-1 > Withdrawn
reinstate 2 MA-1 > Reinstated
close-hall S1 B > Closed
decide 1 HA1 granted on 2027-05-31 > Unchanged
# the desk of an appellant goes to another
opening S1 A 1 12:00
entry 1 MA-1
entry 2 MA-1
lodged 1 HA1 S1 hall A
seat S1 1 A
decide 1 HA1 granted on 2027-05-31 > Decided Granted - 0
seats S1 > 2 A
# a grant moves another by a chain
opening S1 A 1 12:00
opening S1 B 1 12:00
entry 1 MA-1
entry 2 MA-1
lodged 2 HA1 S1 hall B
seat S1 1 A
seat S1 2 B
decide 2 HA1 granted on 2027-05-31 > Decided Granted A 1
seats S1 > 1 B 2 A
# a granted clash turns the sitting paper
opening S1 A 1 12:00
opening S1 B 1 12:00
paper PH-2 S1 60 computer
hall C computer
opening S1 C 1 12:00
entry 3 MA-1
entry 3 PH-2
lodged 3 CL1 S1 clash PH-2
seat S1 3 A
decide 3 CL1 granted on 2027-05-31 > Decided Granted C 0
seats S1 > 3 C
";

#[test]
fn decisions(rt: HostRuntime) -> Result<(), Fail> {
    play(rt.alloc(), LODGED, DECIDED)?;
    play(rt.alloc(), "", GRANTED)
}
