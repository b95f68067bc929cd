// What a record hits in a lent list of buttons.
ghost use Rattle.std.specs.Prelude.{◌≡◌};
ghost use Rattle.presses.specs.Buttons.{nowhere, hit_of, hit_in};
ghost use Rattle.presses.specs.Turns.{hit_at};

use presses::{Button, Hit};

// No button.
fn none_hit() -> Hit
    ensures { result ≡ nowhere }
{
    Hit { number: 0, item: 0 }
}

// The button at a place, or none where the list has no such place.
fn hit_of(buttons: &[Button], place: usize) -> Hit
    ensures { result ≡ hit_of buttons.now place }
{
    let Some(button) = buttons.get(place) else {
        return none_hit();
    };
    Hit {
        number: place + 1,
        item: button.item,
    }
}

// The button that the record at a place looks at.
pub(crate) fn hit_at(buttons: &[Button], records: &[u8], at: usize) -> Hit
    ensures { result ≡ hit_at (hit_in buttons.now) records.now at }
{
    let look = press_turns::look_at(records, at);
    if look.due {
        let place = crate::kangirlo_button_at(buttons, look.point.x, look.point.y);
        hit_of(buttons, place)
    } else {
        none_hit()
    }
}
