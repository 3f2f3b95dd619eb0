//! Arrangements that also hold for later sessions: two days at an office.
use super::play;
use std::test::Fail;

/// The school with S1, in which both halls are open until noon, and S2 on the day after, in which A closes at
/// 10:00. Each hall has a desk.
const TWO_DAYS: &str = "\
opening S1 A 1 12:00
opening S1 B 1 12:00
session S2 2027-06-02
paper MB-1 S2 60 -
opening S2 A 1 10:00
opening S2 B 1 12:00
";

/// In the first story S1 is held after S2 in the end.
const GRANTED: &str = "\
# a standing grant counts from its date on
import entries 1 MA-1, 1 MB-1 > Imported 2 0 0
seats S1 > 1 A
seats S2 > 1 A
lodge 1 AR1 S1 arrangement - 25 on 2027-05-22 > Lodged Pending
lodge 1 HA1 S1 hall A on 2027-05-22 > Lodged Pending
decide 1 AR1 standing on 2027-05-31 > Decided Granted A 0
finish S2 1 > 615
seats S2 > 1 B
decide 1 AR1 standing on 2027-05-31 > Unchanged
decide 1 AR1 granted on 2027-05-31 > NotOpenAppeal
import sessions S1 2027-06-03 > Imported 0 1 0
finish S2 1 > 600
seats S2 > 1 B
decide 1 HA1 standing on 2027-05-31 > NotArrangement
# a later grant ends a standing one
import entries 1 MA-1, 1 MB-1 > Imported 2 0 0
lodge 1 AR1 S1 arrangement screen 0 on 2027-05-22 > Lodged Pending
decide 1 AR1 standing on 2027-05-22 > Decided Granted - 0
seats S1 > -
seats S2 > -
lodge 1 AR2 S1 arrangement - 25 on 2027-05-22 > Lodged Pending
decide 1 AR2 granted on 2027-05-22 > Decided Granted A 0
state 1 AR1 > Superseded
finish S2 1 > 600
seats S2 > 1 A
decide 1 AR1 standing on 2027-05-22 > NotOpenAppeal
";

#[test]
fn standing_grants(rt: HostRuntime) -> Result<(), Fail> {
    play(rt.alloc(), TWO_DAYS, GRANTED)
}
