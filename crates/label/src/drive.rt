// A run over all records, with the button of each looked up in a lent list.
ghost use Rattle.std.specs.Prelude.{◌≡◌};
ghost use Rattle.presses.specs.Buttons.{hit_in};
ghost use Rattle.presses.specs.Turns.{begun_at, went_to, driven};

use crate::search::hit_at;
use presses::{Button, Tally};

// From a place on. Choices are written only where `writing`: otherwise they are counted.
pub(crate) fn drive(
    states: &mut [u8; 256],
    pressed: &mut [usize; 256],
    from: usize,
    buttons: &[Button],
    records: &[u8],
    choices: &mut [u32],
    writing: bool,
) -> Tally
    ensures { went_to states.new pressed.new result choices.new ≡ driven (hit_in buttons.now) records.now writing (went_to states.old pressed.old (begun_at from) choices.old) }
{
    let mut tally = presses::begin(from);
    while tally.at < records.len() {
        let hit = hit_at(buttons, records, tally.at);
        tally = press_turns::go_on(states, pressed, tally, hit, records, choices, writing);
    }
    tally
}
