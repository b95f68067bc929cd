// A run over records, one a turn: between two turns somebody looks up the button that the next one looks at.
#![tactic(auto)]

ghost use Rattle.std.specs.Prelude.{◌≡◌, [], ◌∷◌, if◌then◌else◌, drop};
ghost use Rattle.house.specs.Layout.{record_of};
ghost use Rattle.presses.specs.Choosing.{is_choice, is_lift, looks, pressed_after};
ghost use Rattle.presses.specs.Turns.{no_look, look_at, next_at, count_on, put_choices, TakesContact, went_to, went_on};

use house::{Contact, Point, Record};
use presses::{Hit, Look, Tally};

// Goes engaged.
const PRESS: u8 = 0x19;

// Stays engaged.
const MOVE: u8 = 0x1A;

// Ends being engaged without a cancel.
fn is_lift(flags: u8) -> bool
    ensures { result ≡ is_lift flags }
{
    flags == 0x04 || flags == 0x0C
}

fn does_look(flags: u8) -> bool
    ensures { result ≡ looks flags }
{
    flags == PRESS || is_lift(flags)
}

// The record at a place: past the end it is none, and refused.
fn record_at(records: &[u8], at: usize) -> Record
    ensures { result ≡ record_of (drop at records.now) }
{
    unpacking::read_record(&records[at.min(records.len())..])
}

// What looks at nothing.
fn no_look() -> Look
    ensures { result ≡ no_look }
{
    Look {
        due: false,
        point: Point { x: 0, y: 0 },
    }
}

// Whether the record at a place looks at buttons, and at which point.
pub fn look_at(records: &[u8], at: usize) -> Look
    ensures { result ≡ look_at records.now at }
{
    let Record::Contact(_, contact) = record_at(records, at) else {
        return no_look();
    };
    Look {
        due: does_look(contact.flags),
        point: contact.place,
    }
}

// A lift in the button that was pressed.
fn is_choice(flags: u8, hit: Hit, pressed: usize) -> bool
    ensures { result ≡ is_choice flags hit pressed }
{
    is_lift(flags) && pressed != 0 && hit.number == pressed
}

// The button that a contact has pressed after its flags.
fn pressed_after(flags: u8, hit: Hit, pressed: usize) -> usize
    ensures { result ≡ pressed_after flags hit pressed }
{
    match flags {
        PRESS => hit.number,
        MOVE => pressed,
        _ => 0,
    }
}

// Puts a choice, if there was one, behind n others, where there is room.
fn put_choice(choices: &mut [u32], writing: bool, n: usize, chose: bool, id: u8, item: u32)
    ensures { choices.new ≡ put_choices writing n (if chose then (record { id = id; item = item } ∷ []) else []) choices.old }
{
    if chose && writing && n < choices.len() / 2 {
        let at = 2 * n;
        choices[at] = id as u32;
        choices[at + 1] = item;
    }
}

// Where the record after the one at a place stands, or the end.
fn next_at(n: usize, at: usize) -> usize
    ensures { result ≡ next_at n at }
{
    at.saturating_add(house::RECORD_BYTES).min(n)
}

// The number of choices, one more where there was one.
fn count_on(count: usize, chose: bool) -> usize
    ensures { result ≡ count_on chose count }
{
    if chose { count.wrapping_add(1) } else { count }
}

// A turn over a contact's record.
fn take_contact(
    states: &mut [u8; 256],
    pressed: &mut [usize; 256],
    count: usize,
    hit: Hit,
    contact: Contact,
    choices: &mut [u32],
    writing: bool,
) -> usize
    ensures { TakesContact hit contact writing count result states.old states.new pressed.old pressed.new choices.old choices.new }
{
    let id = contact.id as usize;
    let chose = is_choice(contact.flags, hit, pressed[id]);
    put_choice(choices, writing, count, chose, contact.id, hit.item);
    states[id] = states::next_state(contact.flags, states[id]);
    pressed[id] = pressed_after(contact.flags, hit, pressed[id]);
    count_on(count, chose)
}

// The turn over the next record, which looks at the button `hit`; a choice is written only where `writing`.
pub fn go_on(
    states: &mut [u8; 256],
    pressed: &mut [usize; 256],
    tally: Tally,
    hit: Hit,
    records: &[u8],
    choices: &mut [u32],
    writing: bool,
) -> Tally
    ensures { went_to states.new pressed.new result choices.new ≡ went_on hit records.now writing (went_to states.old pressed.old tally choices.old) }
{
    let next = Tally {
        at: next_at(records.len(), tally.at),
        ..tally
    };
    let Record::Contact(_, contact) = record_at(records, tally.at) else {
        return next;
    };
    let count = take_contact(states, pressed, tally.count, hit, contact, choices, writing);
    Tally { count, ..next }
}
