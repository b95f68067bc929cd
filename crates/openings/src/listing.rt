// Who is in the set: those active at a cancel, and the ids of frames that are ignored or cancelled.
ghost use Rattle.std.specs.Prelude.{◌≡◌, not, []};
ghost use Rattle.formats.specs.Answer.{end_of};
ghost use Rattle.machine.specs.Table.{active, one};
ghost use Rattle.machine.specs.Held.{active_ids, leaving};
ghost use Rattle.contacts.specs.Ruling.{table_from};
ghost use Rattle.openings.specs.Openings.{Lists};

use slices::Left;

// The mark of a contact in this state.
fn mark_of(state: u8) -> u8
    ensures { result ≡ one (active state) }
{
    if state == states::OUT {
        return 0;
    }
    1
}

// A mark for each active contact, put for those that stand there.
pub fn mark_active(states: &[u8; 256], held: &mut [u8; 256])
    ensures { held.new ≡ active_ids (table_from states.now [] []) }
{
    for (i, mark) in held.iter_mut().enumerate() {
        *mark = mark_of(states[i]);
    }
}

// The mark of an id that is listed with these flags: 0x02, 0x22, 0x04 and 0x24 take it out.
fn mark_for(flags: u8) -> u8
    ensures { result ≡ one (not (leaving flags)) }
{
    match flags {
        0x02 | 0x22 | 0x04 | 0x24 => 0,
        _ => 1,
    }
}

// The n contacts at the front of rest, of a frame that is ignored or cancelled: each id joins the set, or leaves it by its flags. Answers what is
// behind them, and all of rest where they cannot all be read.
pub fn list_contacts<'a>(rest: &'a [u8], n: usize, held: &mut [u8; 256]) -> &'a [u8]
    ensures value { Lists n rest.now result.now held.old held.new }
    ensures tail { end_of result ≡ end_of rest.entry }
{
    let mut left = Left { bytes: rest };
    for _ in 0..n {
        let Ok((contact, behind)) = touch::read_contact(left.bytes, false) else {
            return rest;
        };
        let own = contact.id as usize;
        held[own] = mark_for(contact.flags);
        left = Left { bytes: behind };
    }
    left.bytes
}
