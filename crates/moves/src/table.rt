// The table of contacts, changed where it stands.
ghost use Rattle.std.specs.Prelude.{◌≡◌};
ghost use Rattle.formats.specs.Answer.{end_of};
ghost use Rattle.machine.specs.Table.{with_contact, resting};
ghost use Rattle.contacts.specs.Ruling.{source, table_from};
ghost use Rattle.moves.specs.Moves.{Moves, Applies};

use house::{Contact, Point};
use slices::Left;

// A contact's state and position, put for those that it had.
pub fn store(
    id: u8,
    state: u8,
    place: Point,
    states: &mut [u8; 256],
    xs: &mut [i32; 256],
    ys: &mut [i32; 256],
)
    ensures { table_from states.new xs.new ys.new ≡ with_contact (table_from states.old xs.old ys.old) id state place }
{
    let i = id as usize;
    let x = place.x;
    let y = place.y;
    states[i] = state;
    xs[i] = x;
    ys[i] = y;
}

// A contact of a frame goes to its next state; out of range it has position 0, 0.
pub fn move_contact(
    contact: Contact,
    states: &mut [u8; 256],
    xs: &mut [i32; 256],
    ys: &mut [i32; 256],
)
    ensures { Moves contact (table_from states.old xs.old ys.old) (table_from states.new xs.new ys.new) }
{
    let i = contact.id as usize;
    let state = states::next_state(contact.flags, states[i]);
    if state == states::OUT {
        store(contact.id, state, Point { x: 0, y: 0 }, states, xs, ys);
        return;
    }
    let place = contact.place;
    store(contact.id, state, place, states, xs, ys);
}

// The n contacts at the front of rest, each stored with its next state. Answers what is behind them, and all of rest where they cannot all be read.
pub fn apply<'a>(
    rest: &'a [u8],
    n: usize,
    recorded: bool,
    states: &mut [u8; 256],
    xs: &mut [i32; 256],
    ys: &mut [i32; 256],
) -> &'a [u8]
    ensures value { Applies (source recorded) n rest.now result.now (table_from states.old xs.old ys.old) (table_from states.new xs.new ys.new) }
    ensures tail { end_of result ≡ end_of rest.entry }
{
    let mut left = Left { bytes: rest };
    for _ in 0..n {
        let Ok((contact, behind)) = contacts::read_contact(left.bytes, recorded) else {
            return rest;
        };
        move_contact(contact, states, xs, ys);
        left = Left { bytes: behind };
    }
    left.bytes
}

// Every contact goes out of range.
pub fn rest_all(states: &mut [u8; 256], xs: &mut [i32; 256], ys: &mut [i32; 256])
    ensures { table_from states.new xs.new ys.new ≡ resting }
{
    *states = [states::OUT; 256];
    *xs = [0; 256];
    *ys = [0; 256];
}
