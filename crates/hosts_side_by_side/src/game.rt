//! All scripts, one after the other.
use crate::draws::Draws;
use crate::reports::both_reports;
use crate::tally::Tally;
use crate::writing::script_text;
use std::alloc::Global;
use std::str;
use std::sync::Wait;

/// How many scripts are played.
const SCRIPTS: u32 = 200;

/// Plays a script on both hosts, and counts.
fn play_one<R: Wait>(rt: &R, alloc: Global, draws: &mut Draws, tally: &mut Tally) -> Option<()> {
    let text = script_text(draws, alloc).ok()?;
    let (plain, shared) = both_reports(rt, alloc, &text)?;
    let plain = str::from_utf8(plain.contents()).ok()?;
    let shared = str::from_utf8(shared.contents()).ok()?;
    tally.add_script(&text, plain, shared);
    Some(())
}

/// Plays all scripts on both hosts. `None` where there is not enough memory, or a script is none.
pub(crate) fn play_all<R: Wait>(rt: &R, alloc: Global) -> Option<Tally> {
    let mut draws = Draws::new();
    let mut tally = Tally::NOTHING;
    for _ in 0..SCRIPTS {
        play_one(rt, alloc, &mut draws, &mut tally)?;
    }
    Some(tally)
}
