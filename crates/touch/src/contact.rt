// A contact, field by field.
ghost use Rattle.std.specs.Prelude.{◌≡◌};
ghost use Rattle.formats.specs.Format.{byte};
ghost use Rattle.formats.specs.Answer.{read_of, tail_end, end_of};
ghost use Rattle.fields.specs.Integers.{taken_by};
ghost use Rattle.touch.specs.Touch.{optional, contact};

use crate::{Optional, parts};
use house::Contact;
use paper::Refusal;
use well_formed::{ORIENTATION_MOST, PRESSURE_MOST, has_field};

// The id, one byte.
#[tactic(auto, unfolding(formats::specs::Format::read_byte))]
fn read_id(rest: &[u8]) -> Result<(u8, &[u8]), Refusal>
    ensures value { read_of result ≡ byte.read rest.now }
    ensures tail { tail_end rest.entry result ≡ end_of rest.entry }
{
    if rest.is_empty() {
        return Err(Refusal::Truncated);
    }
    Ok((rest[0], &rest[1..]))
}

// The fields that fieldsPresent says are there.
#[tactic(auto, unfolding(crate::specs::Touch::optional))]
fn read_optional(rest: &[u8], present: u16, strictly: bool) -> Result<(Optional, &[u8]), Refusal>
    ensures value { read_of result ≡ (optional (taken_by strictly) present).read rest.now }
    ensures tail { tail_end rest.entry result ≡ end_of rest.entry }
{
    let (sides, rest) = parts::read_sides(rest, has_field(present, 1), strictly)?;
    let turned = has_field(present, 2);
    let (orientation, rest) = parts::read_up_to(rest, turned, ORIENTATION_MOST, strictly)?;
    let pressed = has_field(present, 4);
    let (pressure, rest) = parts::read_up_to(rest, pressed, PRESSURE_MOST, strictly)?;
    let found = Optional {
        sides,
        orientation: orientation as u16,
        pressure: pressure as u16,
    };
    Ok((found, rest))
}

// The contact at the front, and what is behind it.
#[tactic(auto, using(states::proofs::Rule::listed_small), unfolding(crate::specs::Touch::contact, crate::specs::Touch::optional))]
pub fn read_contact(rest: &[u8], strictly: bool) -> Result<(Contact, &[u8]), Refusal>
    ensures value { read_of result ≡ (contact (taken_by strictly)).read rest.now }
    ensures tail { tail_end rest.entry result ≡ end_of rest.entry }
{
    let (id, rest) = read_id(rest)?;
    let (present, rest) = parts::read_present(rest, strictly)?;
    let (place, rest) = parts::read_point(rest, strictly)?;
    let (flags, rest) = parts::read_flags(rest, strictly)?;
    let bare = Contact {
        flags: flags as u8,
        present: present as u8,
        id,
        place,
        sides: parts::NO_SIDES,
        orientation: 0,
        pressure: 0,
    };
    // Most contacts end here: they are spared the call, and a copy of what it answers.
    if present == 0 {
        return Ok((bare, rest));
    }
    let (more, rest) = read_optional(rest, present, strictly)?;
    let found = Contact {
        sides: more.sides,
        orientation: more.orientation,
        pressure: more.pressure,
        ..bare
    };
    Ok((found, rest))
}
