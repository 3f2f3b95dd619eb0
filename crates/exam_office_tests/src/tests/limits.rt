//! Each limit can be reached, but not passed: one import reaches it, and the next would pass it.
use super::play;
use std::test::Fail;

/// One session, one paper, two halls and five candidates exist already, and among the sessions and the candidates of a
/// story they are counted once.
const LIMITS: &str = "\
# the most sessions
0..399 session S* 2027-06-01
import sessions T1 2027-06-01 > Imported 1 0 0
import sessions T2 2027-06-01 > TooMany
# the most papers
0..1998 paper P* S1 60 -
import papers T1 S1 60 - > Imported 1 0 0
import papers T2 S1 60 - > TooMany
# the most halls
0..497 hall H* -
import halls T1 - > Imported 1 0 0
import halls T2 - > TooMany
# the most openings of a session
opening S1 A 1 12:00
opening S1 B 1 12:00
0..255 hall H* -
0..253 opening S1 H* 1 12:00
import openings S1 H253 1 12:00 > Imported 1 0 0
import openings S1 H254 1 12:00 > TooMany
# the most candidates
1..20000 candidate *
import candidates 20000 > Imported 1 0 0
import candidates 20001 > TooMany
# the most members of a session
1..4098 candidate *
1..4096 entry * MA-1
import entries 4096 MA-1 > Imported 1 0 0
import entries 4097 MA-1 > TooMany
";

#[test]
fn limits(rt: HostRuntime) -> Result<(), Fail> {
    play(rt.alloc(), "", LIMITS)
}
