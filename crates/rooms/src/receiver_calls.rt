// The receiver.
use crate::{Told, lent, line};
use receiver::{Answer, Receiver};

// What a receiver answered.
fn add_answer(page: &mut [u8], place: usize, answer: Answer) -> usize {
    let mut at = lines::add_field(page, place, answer.refusal as u64);
    at = lines::add_field(page, at, answer.injected as u64);
    at = lines::add_field(page, at, answer.ignored as u64);
    at = lines::add_field(page, at, answer.cancelled as u64);
    at = lines::add_count(page, at, answer.time.0);
    lines::add_field(page, at, answer.records as u64)
}

// One call, with all of what is lent.
fn call(page: &mut [u8], place: usize, receiver: Receiver, entry: &[u8], out: &mut [u8]) -> Told {
    lent::paint(out);
    let received = receiving::receive(receiver, entry, out);
    let answer = received.answer;
    let after = received.receiver;
    let name = lines::add_text(page, place, b" receive");
    let room = lines::add_field(page, name, out.len() as u64);
    let at = add_answer(page, room, answer);
    Told {
        receiver: after,
        at: line::add_left(page, at, answer.refusal, out),
    }
}

// One call, with so many bytes of the output, or with all.
fn call_with(
    page: &mut [u8],
    place: usize,
    receiver: Receiver,
    entry: &[u8],
    output: &mut [u8],
    room: usize,
) -> Told {
    let end = room.min(output.len());
    call(page, place, receiver, entry, &mut output[..end])
}

// An entry: the receiver that too little left is the one that is lent enough.
pub(crate) fn tell(
    page: &mut [u8],
    place: usize,
    number: u64,
    receiver: Receiver,
    entry: &[u8],
    output: &mut [u8],
) -> Told {
    let plenty = receiving::receive(receiver, entry, output);
    let enough = lent::bytes_of(plenty.answer.records, output.len());
    if enough == 0 {
        return call_with(page, place, receiver, entry, output, 0);
    }
    let less = call_with(page, place, receiver, entry, output, enough - 1);
    let same = less.receiver;
    let at = line::next(page, less.at, number);
    call_with(page, at, same, entry, output, enough)
}
