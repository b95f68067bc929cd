// Buffers of bench-file entries, each fed to one receiver in a single call with the room and the places that stand before it: for
// each its number, the refusal, the entries and the records, and a line for each entry that was fed.
#![tactic(auto)]

ghost use Rattle.std.specs.Prelude.{◌≤◌, length};
ghost use Rattle.feed.specs.Within.{entry_most};

use bursts::{Batch, ReceivedAll};
use receiver::Receiver;
use turns::{Stand, Turn};

// What stands before a buffer: the room, four bytes, and the places, two.
const HEAD: usize = 6;

// The longest line of an entry: 169 bytes with the end of the line before it, two digits for each byte that a message wrote, and its own end.
const LINE_MOST: usize = 169 + 2 * receiver::OUTPUT_MOST + 1;

// The receiver after a buffer, and where the page goes on.
#[derive(Clone, Copy)]
struct Told {
    receiver: Receiver,
    at: usize,
}

// A number, or the greatest that it may be.
fn at_most(n: usize, most: usize) -> usize
    ensures { result ≤ most }
{
    if most < n {
        return most;
    }
    n
}

// The numbers of so many answers, of a list that has so many: of no more answers than that has whole.
fn numbers_of(places: usize, all: usize) -> usize
    ensures { result ≤ all }
{
    intake::ANSWER_NUMBERS * at_most(places, all / intake::ANSWER_NUMBERS)
}

// The line of each entry. What was written for them stands in the output one after the other.
fn add_answers(
    page: &mut [u8],
    place: usize,
    number: u64,
    answers: &[u32],
    output: &[u8],
) -> usize {
    let mut at = place;
    let mut k: u64 = 1;
    let mut first: usize = 0;
    let mut from: usize = 0;
    while intake::ANSWER_NUMBERS <= answers.len() - first {
        // never so: no answer tells of more records than were written
        if output.len() < from {
            return at;
        }
        at = lines::turn_over(page, at, LINE_MOST);
        at = batch_lines::add_answer(page, at, number, k, &answers[first..], &output[from..]);
        // the last number of an answer is how many records it wrote
        from += batch_lines::bytes_of(answers[first + 5]);
        first += intake::ANSWER_NUMBERS;
        k += 1;
    }
    at
}

// What a batch came to, and its entries.
fn add_received(
    page: &mut [u8],
    place: usize,
    number: u64,
    batch: Batch,
    answers: &[u32],
    output: &[u8],
) -> usize {
    let at = batch_lines::add_batch(page, place, batch);
    let end = numbers_of(batch.entries, answers.len());
    add_answers(page, at, number, &answers[..end], output)
}

// Feeds a buffer, with as much of the output and of the answers as the entry asks for or as there is.
fn feed_buffer(
    receiver: Receiver,
    entry: &[u8],
    answers: &mut [u32],
    output: &mut [u8],
) -> ReceivedAll
    requires { 6 ≤ length entry.now }
{
    let asked = entries::join_four(entry[0], entry[1], entry[2], entry[3]) as usize;
    let room = at_most(asked, output.len());
    let listed = entries::join_two(entry[4], entry[5]) as usize;
    let end = numbers_of(listed, answers.len());
    bursts::receive_all(
        receiver,
        &entry[HEAD..],
        &mut answers[..end],
        &mut output[..room],
    )
}

// What is said of an entry after its number.
fn take_entry(
    page: &mut [u8],
    line: Stand,
    receiver: Receiver,
    entry: &[u8],
    answers: &mut [u32],
    output: &mut [u8],
) -> Told {
    if entry.len() < HEAD {
        return Told {
            receiver,
            at: lines::add_text(page, line.at, b" bad"),
        };
    }
    let received = feed_buffer(receiver, entry, answers, output);
    Told {
        receiver: received.receiver,
        at: add_received(page, line.at, line.number, received.batch, answers, output),
    }
}

// The space holds the longest entry, which has 65,535 bytes behind two of length, and the page the longest line.
// A proved loop has to end, and nothing says that an input does: it stops at a number that no run reaches.
fn run(space: &mut [u8], page: &mut [u8], answers: &mut [u32], output: &mut [u8])
    requires { (entry_most ≤ length space.old) × (98474 ≤ length page.old) }
{
    let mut receiver = receiver::fresh();
    let mut stand = turns::begin();
    for _ in 1..u64::MAX {
        let turn = turns::next_turn(space, page, stand, LINE_MOST);
        let Turn::Entry(from, to, line) = turn else {
            return;
        };
        let told = take_entry(page, line, receiver, &space[from..to], answers, output);
        receiver = told.receiver;
        stand = turns::end_line(page, line, told.at);
    }
}

fn main() {
    let mut space = [0u8; feed::SPACE];
    let mut page = [0u8; 262144];
    let mut answers = [0u32; 4096 * intake::ANSWER_NUMBERS];
    let mut output = [0u8; 131072];
    run(&mut space, &mut page, &mut answers, &mut output);
}
