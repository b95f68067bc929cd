// Each field from its place in a record's 21 bytes.
ghost use Rattle.std.specs.Prelude.{◌≡◌, ◌+◌, ◌-◌, ◌/◌, ◌%◌, ◌^◌, eqb};
ghost use Rattle.digits.specs.Digits.{joined};
ghost use Rattle.house.specs.Fields.{record_bytes, unpacked};
ghost use Rattle.house.specs.Layout.{contact_widths, kind_of, head_in, contact_of, head_spare, contact_spare};
ghost use Rattle.house.specs.Twos.{of_twos, Holds};
ghost use Rattle.unpacking.specs.Within.{Within};
ghost use Rattle.unpacking.specs.Parts.{point_as, sides_as};

use crate::bits::get;
use crate::signs::get_signed;
use house::{Contact, Head, Point, RECORD_BYTES, Sides};
use paper::Microseconds;

pub(crate) fn read_kind(whole: &[u8; RECORD_BYTES]) -> u8
    ensures { result ≡ kind_of whole.now }
{
    get(whole, 0, 2) as u8
}

pub(crate) fn read_head(whole: &[u8; RECORD_BYTES]) -> Head
    ensures { result ≡ head_in whole.now }
{
    let low = get(whole, 2, 6) as u16;
    let offset = get(whole, 8, 61);
    let high = get(whole, 69, 3) as u16;
    Head {
        count: high * 64 + low,
        offset: Microseconds(offset),
    }
}

fn read_point(whole: &[u8; RECORD_BYTES]) -> Point
    ensures { result ≡ point_as (unpacked contact_widths whole.now) }
{
    let x = get_signed(whole, 19, 30);
    let y = get_signed(whole, 49, 30);
    Point { x, y }
}

fn read_side(whole: &[u8; RECORD_BYTES], at: usize) -> i16
    requires { Within at 15 record_bytes }
    ensures { (result ≡ of_twos 15 (joined 0 whole.now / 2 ^ (168 - (at + 15)) % 2 ^ 15)) × Holds 15 result }
{
    get_signed(whole, at, 15) as i16
}

fn read_sides(whole: &[u8; RECORD_BYTES]) -> Sides
    ensures { result ≡ sides_as (unpacked contact_widths whole.now) }
{
    let left = read_side(whole, 79);
    let top = read_side(whole, 94);
    let right = read_side(whole, 109);
    let bottom = read_side(whole, 124);
    Sides {
        left,
        top,
        right,
        bottom,
    }
}

pub(crate) fn read_contact(whole: &[u8; RECORD_BYTES]) -> Contact
    ensures { result ≡ contact_of whole.now }
{
    let flags = get(whole, 2, 6) as u8;
    let present = get(whole, 8, 3) as u8;
    let id = get(whole, 11, 8) as u8;
    let place = read_point(whole);
    let sides = read_sides(whole);
    let orientation = get(whole, 139, 9) as u16;
    let pressure = get(whole, 148, 16) as u16;
    Contact {
        flags,
        present,
        id,
        place,
        sides,
        orientation,
        pressure,
    }
}

// Whether the 96 unused bits of a head are 0: more than a word, so in two parts.
pub(crate) fn is_head_spare_zero(whole: &[u8; RECORD_BYTES]) -> bool
    ensures { result ≡ eqb (head_spare whole.now) 0 }
{
    let high = get(whole, 72, 56);
    let low = get(whole, 128, 40);
    if high == 0 { low == 0 } else { false }
}

pub(crate) fn is_contact_spare_zero(whole: &[u8; RECORD_BYTES]) -> bool
    ensures { result ≡ eqb (contact_spare whole.now) 0 }
{
    get(whole, 164, 4) == 0
}
