//! Which sessions a command touches, by example.
use super::play;
use std::test::Fail;

/// The halls A, which S1 and S2 open, and B, which S1 opens; papers MA-1 and PH-2 of S1 and MB-1 of S2. Candidate 1
/// is entered for MA-1 and MB-1, candidate 2 has withdrawn from PH-2, and candidate 3 is entered for nothing.
const TWO_SESSIONS: &str = "\
# an import touches what its rows name
session S2 2027-06-01
paper PH-2 S1 60 -
paper MB-1 S2 60 -
opening S1 A 1 12:00
opening S1 B 1 12:00
opening S2 A 1 12:00
entry 1 MA-1
entry 1 MB-1
withdrawn 2 PH-2
lodged 1 HA1 S1 hall B
granted 1 HA2 S1 hall B
seat S1 1 A
seat S2 1 A
touched import sessions S2 2027-06-01, S9 2027-06-01 > S2 S9
touched import openings S2 B 1 12:00 > S2
touched import openings S9 B 1 12:00 > -
touched import candidates 1 > -
touched import entries 3 MB-1, 3 XX > S2
touched import papers MA-1 S2 60 - > S1 S2
touched import papers MA-1 S9 60 - > S1
touched import papers NEW S2 60 - > S2
touched import halls A screen > S1 S2
touched import halls B screen > S1
touched import halls C screen > -
touched import arrangements 1 screen 0 > S1 S2
touched import arrangements 2 screen 0 > -
touched withdraw 1 MB-1 > S2
touched withdraw 1 XX > -
touched reinstate 2 PH-2 > S1
touched close-hall S2 A > S2
touched close-hall S9 A > -
touched retract 1 HA1 > -
touched lodge 1 HA3 S1 hall A > -
touched decide 1 HA1 granted > S1
touched decide 1 HA1 refused > -
touched decide 1 HA9 granted > -
touched decide 1 HA1 standing > S1 S2
";

/// The two sessions with a standing grant of candidate 1 for S1, and an open appeal of the same kind. A grant that also
/// holds for later sessions touches each session of the appellant, and so does one that ends it. A date touches each
/// session of a candidate with a standing grant.
const ONE_STANDS: &str = "\
# a grant and a date touch each session of a candidate whose grant stands
session S2 2027-06-01
session S3 2027-06-01
paper MB-1 S2 60 -
entry 1 MA-1
entry 1 MB-1
granted 1 AR1 S1 arrangement screen 0
standing 1 AR1
lodged 1 AR2 S1 arrangement reader 0
lodged 1 HA1 S1 hall B
touched decide 1 AR2 standing > S1 S2
touched decide 1 AR2 granted > S1 S2
touched decide 1 AR1 granted > S1
touched decide 1 HA1 granted > S1
touched decide 1 AR2 refused > -
touched import sessions S3 2027-06-09 > S1 S2 S3
";

#[test]
fn each_command_touches_these_sessions(rt: HostRuntime) -> Result<(), Fail> {
    play(rt.alloc(), "", TWO_SESSIONS)?;
    play(rt.alloc(), "", ONE_STANDS)
}
