// The fields of a contact that are more than an integer: integers with a meaning, and parts of several.
ghost use Rattle.std.specs.Prelude.{◌≡◌, leb};
ghost use Rattle.paper.specs.Refusals.{bad_range};
ghost use Rattle.formats.specs.Format.{such, when};
ghost use Rattle.formats.specs.Answer.{read_of, tail_end, end_of};
ghost use Rattle.fields.specs.Integers.{taken_by};
ghost use Rattle.house.specs.Fits.{no_sides};
ghost use Rattle.touch.specs.Touch.{present, point, flags, sides};

use house::{Point, Sides};
use paper::Refusal;

// The sides of a contact that has none.
pub(crate) const NO_SIDES: Sides = Sides {
    left: 0,
    top: 0,
    right: 0,
    bottom: 0,
};

// fieldsPresent: bits 1, 2 and 4 only.
pub(crate) fn read_present(rest: &[u8], strictly: bool) -> Result<(u16, &[u8]), Refusal>
    ensures value { read_of result ≡ (present (taken_by strictly)).read rest.now }
    ensures tail { tail_end rest.entry result ≡ end_of rest.entry }
{
    let (present, rest) = fields::read::<u16>(rest, strictly)?;
    if present < 8 {
        return Ok((present, rest));
    }
    Err(Refusal::BadField)
}

// contactFlags: one of the state table's values.
pub(crate) fn read_flags(rest: &[u8], strictly: bool) -> Result<(u32, &[u8]), Refusal>
    ensures value { read_of result ≡ (flags (taken_by strictly)).read rest.now }
    ensures tail { tail_end rest.entry result ≡ end_of rest.entry }
{
    let (flags, rest) = fields::read::<u32>(rest, strictly)?;
    if states::is_listed(flags) {
        return Ok((flags, rest));
    }
    Err(Refusal::BadFlags)
}

// A number that is there or 0, at most so great: orientation or pressure.
pub(crate) fn read_up_to(
    rest: &[u8],
    there: bool,
    most: u16,
    strictly: bool,
) -> Result<(u32, &[u8]), Refusal>
    ensures value { read_of result ≡ (when there (such (taken_by strictly).u4 (λ v. leb v most) bad_range) 0).read rest.now }
    ensures tail { tail_end rest.entry result ≡ end_of rest.entry }
{
    if !there {
        return Ok((0, rest));
    }
    let (value, rest) = fields::read::<u32>(rest, strictly)?;
    if value <= most as u32 {
        return Ok((value, rest));
    }
    Err(Refusal::BadRange)
}

// x and y.
#[tactic(auto, unfolding(crate::specs::Touch::point))]
pub(crate) fn read_point(rest: &[u8], strictly: bool) -> Result<(Point, &[u8]), Refusal>
    ensures value { read_of result ≡ (point (taken_by strictly)).read rest.now }
    ensures tail { tail_end rest.entry result ≡ end_of rest.entry }
{
    let (x, rest) = fields::read::<i32>(rest, strictly)?;
    let (y, rest) = fields::read::<i32>(rest, strictly)?;
    Ok((Point { x, y }, rest))
}

// left, top, right and bottom.
#[tactic(auto, unfolding(crate::specs::Touch::sides))]
fn read_four(rest: &[u8], strictly: bool) -> Result<(Sides, &[u8]), Refusal>
    ensures value { read_of result ≡ (sides (taken_by strictly)).read rest.now }
    ensures tail { tail_end rest.entry result ≡ end_of rest.entry }
{
    let (left, rest) = fields::read::<i16>(rest, strictly)?;
    let (top, rest) = fields::read::<i16>(rest, strictly)?;
    let (right, rest) = fields::read::<i16>(rest, strictly)?;
    let (bottom, rest) = fields::read::<i16>(rest, strictly)?;
    let found = Sides {
        left,
        top,
        right,
        bottom,
    };
    Ok((found, rest))
}

// The sides, where they are there.
pub(crate) fn read_sides(
    rest: &[u8],
    there: bool,
    strictly: bool,
) -> Result<(Sides, &[u8]), Refusal>
    ensures value { read_of result ≡ (when there (sides (taken_by strictly)) no_sides).read rest.now }
    ensures tail { tail_end rest.entry result ≡ end_of rest.entry }
{
    if there {
        return read_four(rest, strictly);
    }
    Ok((NO_SIDES, rest))
}
