// The boat list: which button of a lent list a point is in, which of them are shown, and what was chosen.
#![tactic(auto)]

ghost use Rattle.std.specs.Prelude.{◌≡◌};
ghost use Rattle.presses.specs.Buttons.{first_holding, hit_in, SetsShown};
ghost use Rattle.presses.specs.Choosing.{Chooses};
ghost use Rattle.presses.specs.Turns.{chosen_as, ruling_number};

use paper::Refusal;
use presses::{Button, Picked};

mod drive;
mod search;

// The place of the first shown button that holds a point, or the number of buttons where there is none.
pub fn kangirlo_button_at(buttons: &[Button], x: i32, y: i32) -> usize
    ensures { result ≡ first_holding buttons.now (record { x = x; y = y }) }
{
    buttons
        .iter()
        .position(|button| presses::is_in(*button, x, y))
        .unwrap_or(buttons.len())
}

// Shows or hides the button at a place, and answers whether there is one.
pub fn kangirlo_set_shown(buttons: &mut [Button], place: usize, shown: u8) -> bool
    ensures { SetsShown buttons.old place shown result buttons.new }
{
    if place < buttons.len() {
        buttons[place].shown = shown;
        true
    } else {
        false
    }
}

// The number of a ruling: of its refusal, or 0 for none.
fn number_of(ruling: Result<(), Refusal>) -> u8
    ensures { result ≡ ruling_number ruling }
{
    match ruling {
        Ok(()) => 0,
        Err(refusal) => refusal.number(),
    }
}

// The choices of records, of a label that is lent in parts: each a contact's id and an item, in the order of the records; or a refusal, 14 or
// 13, with nothing changed.
pub fn kangirlo_choose_parts(
    states: &mut [u8; 256],
    pressed: &mut [usize; 256],
    buttons: &[Button],
    records: &[u8],
    choices: &mut [u32],
) -> Picked
    ensures { Chooses (hit_in buttons.now) (record { states = states.entry.now; pressed = pressed.old }) records.now (chosen_as states.exit.now pressed.new result) choices.old choices.new }
{
    let mut tried_states = *states;
    let mut tried_pressed = *pressed;
    let bytes = records.len();
    let numbers = choices.len();
    let from = presses::counting_from(bytes, numbers);
    let tried = drive::drive(
        &mut tried_states,
        &mut tried_pressed,
        from,
        buttons,
        records,
        choices,
        false,
    );
    let refusal = number_of(taken_records::rule(*states, records, tried.count, numbers));
    let start = presses::writing_from(refusal, bytes);
    let run = drive::drive(states, pressed, start, buttons, records, choices, true);
    presses::conclude(refusal, run)
}
