// The five integers: kinds 0 to 4 are U2, S2, U4, S4 and U8.
use crate::{parse, print};
use integers::Integer;
use slices::Written;

// An integer of a kind: its value, and how many bytes it takes.
fn read<T: Integer>(rest: &[u8], strictly: bool) {
    match integers::read::<T>(rest, strictly) {
        Ok((value, n)) => {
            print::signed(value);
            print::number(n as u64);
        }
        Err(e) => print::refused(e.number()),
    }
}

// The kind, then the rest of a message: read strictly in its only form, or in any.
pub(crate) fn run_read(body: &[u8], strictly: bool) {
    if body.len() < 1 {
        print::word(b"unknown");
        return;
    }
    let rest = &body[1..];
    match body[0] {
        0 => read::<u16>(rest, strictly),
        1 => read::<i16>(rest, strictly),
        2 => read::<u32>(rest, strictly),
        3 => read::<i32>(rest, strictly),
        4 => read::<u64>(rest, strictly),
        _ => print::word(b"unknown"),
    }
}

// What a writer answers, and the whole of what it was lent.
pub(crate) fn show(written: Written, out: &[u8]) {
    print::number(written.refusal as u64);
    print::number(written.bytes as u64);
    print::hex(out);
}

fn write_kind(out: &mut [u8], kind: u8, minus: u8, high: u32, low: u32) -> Written {
    let half = (low % 65536) as u16;
    match kind {
        0 => integer_writers::write(out, half),
        1 => integer_writers::write(out, parse::signed16(minus, half)),
        2 => integer_writers::write(out, low),
        3 => integer_writers::write(out, parse::signed32(minus, low)),
        _ => integer_writers::write(out, parse::joined(high, low)),
    }
}

// The kind, the sign, eight bytes of magnitude, and how much output is lent, which is filled with EE before.
pub(crate) fn run_write(body: &[u8]) {
    if body.len() != 11 {
        print::word(b"unknown");
        return;
    }
    let kind = body[0];
    let room = parse::count(body[10]);
    if 4 < kind {
        print::word(b"unknown");
        return;
    }
    if 32 < room {
        print::word(b"unknown");
        return;
    }
    let high = parse::word(body[2], body[3], body[4], body[5]);
    let low = parse::word(body[6], body[7], body[8], body[9]);
    let mut space = [0xEEu8; 32];
    let out = &mut space[..room];
    let written = write_kind(out, kind, body[1], high, low);
    show(written, out);
}
