// The plain reading, and the strict one.
use crate::{lent, line};
use reading::PlainAnswer;

fn add_name(page: &mut [u8], place: usize, strictly: bool) -> usize {
    if strictly {
        return lines::add_text(page, place, b" strict");
    }
    lines::add_text(page, place, b" plain")
}

// What a reading answered.
fn add_answer(page: &mut [u8], place: usize, answer: PlainAnswer) -> usize {
    let mut at = lines::add_field(page, place, answer.refusal as u64);
    at = lines::add_count(page, at, answer.time.0);
    lines::add_field(page, at, answer.records as u64)
}

// One call, with all of what is lent.
fn call(page: &mut [u8], place: usize, entry: &[u8], out: &mut [u8], strictly: bool) -> usize {
    lent::paint(out);
    let answer = reading::read(entry, out, strictly);
    let name = add_name(page, place, strictly);
    let room = lines::add_field(page, name, out.len() as u64);
    let at = add_answer(page, room, answer);
    line::add_left(page, at, answer.refusal, out)
}

// One call, with so many bytes of the output, or with all.
fn call_with(
    page: &mut [u8],
    place: usize,
    entry: &[u8],
    output: &mut [u8],
    room: usize,
    strictly: bool,
) -> usize {
    let end = room.min(output.len());
    call(page, place, entry, &mut output[..end], strictly)
}

// An entry, on lines of its own below what was said of it.
pub(crate) fn tell(
    page: &mut [u8],
    place: usize,
    number: u64,
    entry: &[u8],
    output: &mut [u8],
    strictly: bool,
) -> usize {
    let plenty = reading::read(entry, output, strictly);
    let enough = lent::bytes_of(plenty.records, output.len());
    let first = line::next(page, place, number);
    if enough == 0 {
        return call_with(page, first, entry, output, 0, strictly);
    }
    let less = call_with(page, first, entry, output, enough - 1, strictly);
    let at = line::next(page, less, number);
    call_with(page, at, entry, output, enough, strictly)
}
