// The lines of calls.
use crate::lent::is_painted;

// The longest: the number, the longest name, the room, six numbers, two digits for each byte of a receiver's output, and the line's end.
pub(crate) const LINE_MOST: usize = 98486;

// Ends a line, and begins the next of the same entry.
pub(crate) fn next(page: &mut [u8], place: usize, number: u64) -> usize {
    let end = lines::add_byte(page, place, b'\n');
    let at = lines::turn_over(page, end, LINE_MOST);
    lines::add_number(page, at, number)
}

// What a call left of its output: what it wrote, or whether a refusal kept it.
pub(crate) fn add_left(page: &mut [u8], place: usize, refusal: u8, out: &[u8]) -> usize {
    if refusal == 0 {
        return lines::add_front(page, place, out.len(), out);
    }
    if is_painted(out) {
        return lines::add_text(page, place, b" kept");
    }
    lines::add_text(page, place, b" changed")
}
