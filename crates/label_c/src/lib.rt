// The archive of the label screen's buttons: each call of include/kangirlo.h under its C name, with the contract of the call of the same name in
// the crate label, which does the work.
#![tactic(auto)]

ghost use Rattle.std.specs.Prelude.{◌≡◌};
ghost use Rattle.presses.specs.Buttons.{first_holding, hit_in, SetsShown};
ghost use Rattle.presses.specs.Choosing.{Chooses};
ghost use Rattle.presses.specs.Turns.{chosen_as};

use presses::{Button, Picked};

// The place of the first shown button that holds a point, or the number of buttons where there is none.
#[unsafe(no_mangle)]
pub extern "C" fn kangirlo_button_at(buttons: &[Button], x: i32, y: i32) -> usize
    ensures { result ≡ first_holding buttons.now (record { x = x; y = y }) }
{
    label::kangirlo_button_at(buttons, x, y)
}

// Shows or hides the button at a place, and answers whether there is one.
#[unsafe(no_mangle)]
pub extern "C" fn kangirlo_set_shown(buttons: &mut [Button], place: usize, shown: u8) -> bool
    ensures { SetsShown buttons.old place shown result buttons.new }
{
    label::kangirlo_set_shown(buttons, place, shown)
}

// The choices of records, of a label that is lent in parts: each a contact's id and an item, in the order of the records; or a refusal, 14 or
// 13, with nothing changed.
#[unsafe(no_mangle)]
pub extern "C" fn kangirlo_choose_parts(
    states: &mut [u8; 256],
    pressed: &mut [usize; 256],
    buttons: &[Button],
    records: &[u8],
    choices: &mut [u32],
) -> Picked
    ensures { Chooses (hit_in buttons.now) (record { states = states.entry.now; pressed = pressed.old }) records.now (chosen_as states.exit.now pressed.new result) choices.old choices.new }
{
    label::kangirlo_choose_parts(states, pressed, buttons, records, choices)
}
