// House records: 21 bytes, bit-packed, most significant bit first. What they are; `packing` writes them and `unpacking` reads them.
#![tactic(auto)]

ghost use Rattle.std.specs.Prelude.{◌≡◌, ◌%◌, ◌^◌};

use paper::Microseconds;

// How many bytes a record has.
pub const RECORD_BYTES: usize = 21;

// The kinds: a frame's head, a frame's contact, a cancel, a dismissal.
pub const HEAD: u8 = 0;

pub const TOUCHED: u8 = 1;

pub const CANCELLED: u8 = 2;

pub const DISMISSED: u8 = 3;

// A frame's head: how many contacts follow, and the time since the frame before.
#[derive(Clone, Copy)]
pub struct Head {
    pub count: u16,
    pub offset: Microseconds,
}

#[derive(Clone, Copy)]
pub struct Point {
    pub x: i32,
    pub y: i32,
}

#[derive(Clone, Copy)]
pub struct Sides {
    pub left: i16,
    pub top: i16,
    pub right: i16,
    pub bottom: i16,
}

// A contact as a message or a record carries it; its kind stands beside it.
#[derive(Clone, Copy)]
pub struct Contact {
    pub flags: u8,
    pub present: u8,
    pub id: u8,
    pub place: Point,
    pub sides: Sides,
    pub orientation: u16,
    pub pressure: u16,
}

// What stands at the front of a slice of records: a head, a contact with its kind, or no whole record and the refusal for it.
#[derive(Clone, Copy)]
pub enum Record {
    Head(Head),
    Contact(u8, Contact),
    Refused(u8),
}

// The k low bits of n: all of it where a word has no more.
pub fn low_bits(n: u64, k: usize) -> u64
    ensures { result ≡ n % 2 ^ k }
{
    if k >= 64 {
        return n;
    }
    n - ((n >> k) << k)
}
