//! What withdrawals, reinstatements and closed halls answer, and who sits where after them.
use super::play;
use std::test::Fail;

/// The halls A, with one desk, and B, with two, are opened, and C is not. Three of five candidates are entered.
const ENTERED: &str = "\
hall C -
opening S1 A 1 12:00
opening S1 B 2 12:00
entry 1 MA-1
entry 2 MA-1
entry 3 MA-1
seat S1 1 A
seat S1 2 B
seat S1 3 B
";

const OBEYED: &str = "\
# a withdrawal unseats the one it names
withdraw 9 XX > UnknownCandidate
withdraw 1 XX > UnknownPaper
withdraw 4 MA-1 > NoEntry
withdraw 1 MA-1 > Withdrawn
entry 1 MA-1 > withdrawn
seats S1 > 2 B 3 B
withdraw 1 MA-1 > AlreadyWithdrawn
# a reinstated candidate is seated again
withdraw 1 MA-1 > Withdrawn
reinstate 9 XX > UnknownCandidate
reinstate 1 XX > UnknownPaper
reinstate 4 MA-1 > NoEntry
reinstate 2 MA-1 > NotWithdrawn
reinstate 1 MA-1 > Reinstated
seats S1 > 1 A 2 B 3 B
# a closed hall unseats where no desk is free
close-hall S9 Z > UnknownSession
close-hall S1 Z > UnknownHall
close-hall S1 C > HallNotOpened
close-hall S1 A > Closed
seats S1 > 2 B 3 B
close-hall S1 A > HallNotOpened
# a closed hall moves where a desk is free
withdraw 3 MA-1 > Withdrawn
close-hall S1 A > Closed
seats S1 > 1 B 2 B
";

const FULL: &str = "\
# nobody is reinstated past the most members of a session
1..4098 candidate *
1..4097 entry * MA-1
withdrawn 4097 MA-1
reinstate 4097 MA-1 > TooMany
withdraw 4096 MA-1 > Withdrawn
reinstate 4097 MA-1 > Reinstated
";

#[test]
fn withdrawals_reinstatements_and_closed_halls(rt: HostRuntime) -> Result<(), Fail> {
    play(rt.alloc(), ENTERED, OBEYED)?;
    play(rt.alloc(), "", FULL)
}
