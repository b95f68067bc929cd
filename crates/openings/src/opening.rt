// Whether a frame is opening.
ghost use Rattle.std.specs.Prelude.{◌≡◌, true, false, cond, eqb};
ghost use Rattle.machine.specs.Conforms.{every};
ghost use Rattle.machine.specs.Held.{is_free, opening};
ghost use Rattle.contacts.specs.Touch.{touch_view};
ghost use Rattle.contacts.specs.Ruling.{contacts_of, of_read};
ghost use Rattle.openings.specs.Openings.{passes_by, judged_among};

use house::Contact;

// 0x19 and 0x0A.
fn begins(flags: u8) -> bool
    ensures { result ≡ cond (eqb flags 0x19) true (eqb flags 0x0A) }
{
    matches!(flags, 0x19 | 0x0A)
}

// Whether a contact has 0x19 or 0x0A, and an id that is not in the set.
fn is_free(contact: Contact, held: &[u8; 256]) -> bool
    ensures { result ≡ is_free touch_view held.now contact }
{
    let own = contact.id as usize;
    begins(contact.flags) && held[own] == 0
}

// Whether a contact has 0x19; or, where contacts may hover, whether it is free.
fn passes(contact: Contact, hovers: bool, held: &[u8; 256]) -> bool
    ensures { result ≡ passes_by hovers held.now contact }
{
    if hovers {
        return is_free(contact, held);
    }
    contact.flags == 0x19
}

// Whether each contact passes.
fn all_pass(rest: &[u8], n: u16, hovers: bool, held: &[u8; 256]) -> bool
    ensures { result ≡ of_read false (every (passes_by hovers held.now)) (contacts_of n rest.now) }
{
    let mut left = rest;
    for _ in 0..n {
        let Ok((contact, behind)) = touch::read_contact(left, false) else {
            return false;
        };
        if !passes(contact, hovers, held) {
            return false;
        }
        left = behind;
    }
    true
}

// Whether a frame is opening: it has a contact, and either each has 0x19, or each has 0x19 or 0x0A and no id is in the set.
fn is_opening(rest: &[u8], n: u16, held: &[u8; 256]) -> bool
    ensures { result ≡ of_read false (opening touch_view held.now) (contacts_of n rest.now) }
{
    if n == 0 {
        return false;
    }
    if all_pass(rest, n, false, held) {
        return true;
    }
    all_pass(rest, n, true, held)
}

// Whether a frame of n contacts is judged at all: running, when the set is not looked at, or opening.
pub fn is_judged(running: bool, rest: &[u8], n: u16, held: &[u8; 256]) -> bool
    ensures { result ≡ judged_among running held.now (contacts_of n rest.now) }
{
    if running {
        return true;
    }
    is_opening(rest, n, held)
}
