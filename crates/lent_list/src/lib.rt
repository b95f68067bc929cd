// The label's calls by value: a list of buttons of its own is lent to them, so that callers need no reference to a struct.
#![tactic(auto)]

ghost use Rattle.std.specs.Prelude.{true, false};
ghost use Rattle.std.specs.Option.{MatchOption};
ghost use Rattle.presses.specs.Buttons.{hit_in, SetsShown};
ghost use Rattle.presses.specs.Choosing.{Chooses};

use presses::{Button, Chosen, Label};

// The choices of records among the buttons of a list.
pub fn choose_lent(
    label: Label,
    buttons: [Button; 64],
    records: &[u8],
    choices: &mut [u32],
) -> Chosen
    ensures { Chooses (hit_in buttons) label records.now result choices.old choices.new }
{
    let Label {
        mut states,
        mut pressed,
    } = label;
    let picked = label::kangirlo_choose_parts(
        &mut states,
        &mut pressed,
        &buttons,
        records,
        choices,
    );
    Chosen {
        label: Label { states, pressed },
        refusal: picked.refusal,
        count: picked.count,
    }
}

// A list with the button at a place shown or hidden, where there is one.
pub fn set_shown_lent(buttons: [Button; 64], place: usize, shown: u8) -> Option<[Button; 64]>
    ensures { MatchOption result (SetsShown buttons place shown false buttons) (λ after. SetsShown buttons place shown true after) }
{
    let mut kept = buttons;
    label::kangirlo_set_shown(&mut kept, place, shown).then_some(kept)
}
