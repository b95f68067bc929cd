// House records: heads and contacts written, and records of any kind read.
use crate::{parse, print, wholes};
use house::{Contact, Head, Point, Record, Sides};
use paper::Microseconds;

// A head of this count: eight bytes of offset, and how much output is lent.
fn put_head(count: u16, rest: &[u8]) {
    if rest.len() != 9 {
        print::word(b"unknown");
        return;
    }
    let room = parse::count(rest[8]);
    if 32 < room {
        print::word(b"unknown");
        return;
    }
    let high = parse::word(rest[0], rest[1], rest[2], rest[3]);
    let low = parse::word(rest[4], rest[5], rest[6], rest[7]);
    let head = Head {
        count,
        offset: Microseconds(parse::joined(high, low)),
    };
    let mut space = [0xEEu8; 32];
    let out = &mut space[..room];
    let written = packing::write_head(out, head);
    wholes::show(written, out);
}

// The count in one byte, then the rest of a head.
pub(crate) fn run_head(body: &[u8]) {
    if body.len() < 1 {
        print::word(b"unknown");
        return;
    }
    put_head(parse::wide(body[0]), &body[1..]);
}

// The count in two bytes.
pub(crate) fn run_wide_head(body: &[u8]) {
    if body.len() < 2 {
        print::word(b"unknown");
        return;
    }
    put_head(parse::half(body[0], body[1]), &body[2..]);
}

// Two coordinates, ten bytes.
fn point_of(s: &[u8]) -> Point {
    if s.len() < 10 {
        return Point { x: 0, y: 0 };
    }
    Point {
        x: parse::signed32(s[0], parse::word(s[1], s[2], s[3], s[4])),
        y: parse::signed32(s[5], parse::word(s[6], s[7], s[8], s[9])),
    }
}

// Four sides, twelve bytes.
fn sides_of(s: &[u8]) -> Sides {
    if s.len() < 12 {
        return Sides {
            left: 0,
            top: 0,
            right: 0,
            bottom: 0,
        };
    }
    Sides {
        left: parse::signed16(s[0], parse::half(s[1], s[2])),
        top: parse::signed16(s[3], parse::half(s[4], s[5])),
        right: parse::signed16(s[6], parse::half(s[7], s[8])),
        bottom: parse::signed16(s[9], parse::half(s[10], s[11])),
    }
}

// Kind, flags, fieldsPresent, id, place, sides, orientation, pressure, and how much output is lent.
pub(crate) fn run_contact(body: &[u8]) {
    if body.len() != 31 {
        print::word(b"unknown");
        return;
    }
    let room = parse::count(body[30]);
    if 32 < room {
        print::word(b"unknown");
        return;
    }
    let contact = Contact {
        flags: body[1],
        present: body[2],
        id: body[3],
        place: point_of(&body[4..14]),
        sides: sides_of(&body[14..26]),
        orientation: parse::half(body[26], body[27]),
        pressure: parse::half(body[28], body[29]),
    };
    let mut space = [0xEEu8; 32];
    let out = &mut space[..room];
    let written = packing::write_contact(out, body[0], contact);
    wholes::show(written, out);
}

fn show_contact(kind: u8, c: Contact) {
    print::word(b"contact");
    print::number(kind as u64);
    print::number(c.flags as u64);
    print::number(c.present as u64);
    print::number(c.id as u64);
    print::signed(c.place.x);
    print::signed(c.place.y);
    print::signed(c.sides.left);
    print::signed(c.sides.top);
    print::signed(c.sides.right);
    print::signed(c.sides.bottom);
    print::number(c.orientation as u64);
    print::number(c.pressure as u64);
}

fn show_head(h: Head) {
    print::word(b"head");
    print::number(h.count as u64);
    print::number(h.offset.0);
}

fn show_well(records: &[u8], record: Record) {
    if well_formed::is_well_formed(records, record) {
        print::word(b"well");
    } else {
        print::word(b"ill");
    }
}

// The record at the front of a slice of records.
pub(crate) fn run_record(records: &[u8]) {
    let record = unpacking::read_record(records);
    match record {
        Record::Head(h) => {
            show_head(h);
            show_well(records, record);
        }
        Record::Contact(kind, c) => {
            show_contact(kind, c);
            show_well(records, record);
        }
        Record::Refused(e) => print::refused(e),
    }
}
