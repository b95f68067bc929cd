// Which records a label takes: well formed, in whole frames with cancels and dismissals between them, each contact by the state table; and what it
// refuses others with.
#![tactic(auto)]

ghost use Rattle.std.specs.Prelude.{◌≡◌};
ghost use Rattle.presses.specs.Choosing.{may_stand, due_after, is_legal, states_after, is_taken};
ghost use Rattle.presses.specs.Turns.{ruling_number, ruled};

use house::Record;
use paper::Refusal;

// Whether a record may stand where so many contacts are due of a frame.
fn may_stand(due: u16, found: Record) -> bool
    ensures { result ≡ may_stand due found }
{
    match found {
        Record::Head(_) => due == 0,
        Record::Contact(kind, _) => (kind == house::TOUCHED) == (due != 0),
        Record::Refused(_) => false,
    }
}

// How many contacts are due after a record.
fn due_after(due: u16, found: Record) -> u16
    ensures { result ≡ due_after due found }
{
    match found {
        Record::Head(head) => head.count,
        Record::Contact(_, _) => due.saturating_sub(1),
        Record::Refused(_) => due,
    }
}

// Whether a record goes by the state table; the state that it leads to is stored.
#[tactic(auto, unfolding(presses::specs::Choosing::states_after))]
fn follow(states: &mut [u8; 256], found: Record) -> bool
    ensures { (result ≡ is_legal states.old found) × (states.new ≡ states_after states.old found) }
{
    match found {
        Record::Head(_) => true,
        Record::Contact(_, contact) => {
            let id = contact.id as usize;
            let state = states::next_state(contact.flags, states[id]);
            states[id] = state;
            state != states::ILLEGAL
        }
        Record::Refused(_) => false,
    }
}

// Whether all the records are taken, from these states on.
pub fn are_taken(states: [u8; 256], records: &[u8]) -> bool
    ensures { result ≡ is_taken states records.now }
{
    let mut kept = states;
    let mut due: u16 = 0;
    let mut left = records;
    while !left.is_empty() {
        let found = unpacking::read_record(left);
        if !well_formed::is_well_formed(left, found)
            || !may_stand(due, found)
            || !follow(&mut kept, found)
        {
            return false;
        }
        due = due_after(due, found);
        left = &left[house::RECORD_BYTES..];
    }
    due == 0
}

// What records are refused with, if they are, where so many choices were counted and the list has so many numbers.
pub fn rule(states: [u8; 256], records: &[u8], count: usize, numbers: usize) -> Result<(), Refusal>
    ensures { ruling_number result ≡ ruled states records.now count numbers }
{
    if !are_taken(states, records) {
        return Err(Refusal::BadRecord);
    }
    if count <= numbers / 2 {
        return Ok(());
    }
    Err(Refusal::NoRoom)
}
