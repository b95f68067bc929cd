// One pass over the contacts of a frame: each is read once for all the rules.
ghost use Rattle.std.specs.Prelude.{◌≡◌};
ghost use Rattle.contacts.specs.Ruling.{source, contacts_by, of_read, surveyed};

use crate::Survey;
use crate::counts::one_if_active;
use crate::rules::is_allowed;
use crate::source::read_contact;

// How the frame changes the number of active contacts, where no id is in it twice and each contact is allowed.
pub(crate) fn survey(
    rest: &[u8],
    n: u16,
    recorded: bool,
    states: &[u8; 256],
    xs: &[i32; 256],
    ys: &[i32; 256],
) -> Option<Survey>
    ensures { result ≡ of_read None (surveyed states.now xs.now ys.now) (contacts_by (source recorded) n rest.now) }
{
    let mut seen = [false; 256];
    let mut came: u16 = 0;
    let mut gone: u16 = 0;
    let mut left = rest;
    for _ in 0..n {
        let (contact, behind) = read_contact(left, recorded).ok()?;
        let i = contact.id as usize;
        if seen[i] || !is_allowed(contact, states, xs, ys) {
            return None;
        }
        seen[i] = true;
        came += one_if_active(states::next_state(contact.flags, states[i]));
        gone += one_if_active(states[i]);
        left = behind;
    }
    Some(Survey { came, gone })
}
