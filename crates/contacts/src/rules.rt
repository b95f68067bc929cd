// The rules that a contact of a frame obeys.
ghost use Rattle.std.specs.Prelude.{◌≡◌, []};
ghost use Rattle.machine.specs.Table.{place_at};
ghost use Rattle.machine.specs.Conforms.{lifts, same_place};
ghost use Rattle.contacts.specs.Ruling.{table_from, legal_in, stays_in, allowed_in};

use house::{Contact, Point};

// Whether a contact's flags lead to a state from the one that it has.
fn is_legal(contact: Contact, states: &[u8; 256]) -> bool
    ensures { result ≡ legal_in states.now contact }
{
    let own = contact.id as usize;
    states::next_state(contact.flags, states[own]) != states::ILLEGAL
}

// Flags with which the position must be the stored one.
fn is_lift(flags: u8) -> bool
    ensures { result ≡ lifts flags }
{
    matches!(flags, 0x0C | 0x04 | 0x24)
}

// Whether a position is the stored one of an id.
fn is_stored(place: Point, id: u8, xs: &[i32; 256], ys: &[i32; 256]) -> bool
    ensures { result ≡ same_place place (place_at (table_from [] xs.now ys.now) id) }
{
    let i = id as usize;
    place.x == xs[i] && place.y == ys[i]
}

// Whether a contact obeys the rule of positions.
fn is_in_place(contact: Contact, xs: &[i32; 256], ys: &[i32; 256]) -> bool
    ensures { result ≡ stays_in xs.now ys.now contact }
{
    let place = contact.place;
    !is_lift(contact.flags) || is_stored(place, contact.id, xs, ys)
}

// Whether a contact obeys both rules that look at no other contact of its frame.
pub(crate) fn is_allowed(
    contact: Contact,
    states: &[u8; 256],
    xs: &[i32; 256],
    ys: &[i32; 256],
) -> bool
    ensures { result ≡ allowed_in states.now xs.now ys.now contact }
{
    is_legal(contact, states) && is_in_place(contact, xs, ys)
}
