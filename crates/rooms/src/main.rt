// Each call that is lent output, with one byte too little and then with just enough: for each entry of a bench file the receiver, both plain
// readings, and the writers of what the entry is. A line for each call: the entry's number, the call, how much was lent, and what it answered;
// then what it wrote, or whether it kept all as it was.
#![tactic(auto)]

mod draft;
mod lent;
mod line;
mod reading_calls;
mod receiver_calls;
mod writer_calls;

ghost use Rattle.std.specs.Prelude.{◌≤◌, length};
ghost use Rattle.feed.specs.Within.{entry_most};

use receiver::Receiver;
use turns::{Stand, Turn};

// The receiver after an entry, and where the page goes on.
#[derive(Clone, Copy)]
struct Told {
    receiver: Receiver,
    at: usize,
}

// All that is said of an entry after its number.
fn take_entry(
    page: &mut [u8],
    line: Stand,
    receiver: Receiver,
    entry: &[u8],
    output: &mut [u8],
    records: &mut [u8],
) -> Told {
    let number = line.number;
    let received = receiver_calls::tell(page, line.at, number, receiver, entry, output);
    let plain = reading_calls::tell(page, received.at, number, entry, output, false);
    let strict = reading_calls::tell(page, plain, number, entry, output, true);
    let after = received.receiver;
    Told {
        receiver: after,
        at: writer_calls::tell(page, strict, number, entry, output, records),
    }
}

// What is lent has room for the longest entry with its length, and for the longest line. A proved loop has to end, and nothing says that an
// input does: it stops at a number that no run reaches.
fn run(space: &mut [u8], page: &mut [u8], output: &mut [u8], records: &mut [u8])
    requires { (entry_most ≤ length space.old) × (98486 ≤ length page.old) }
{
    let mut receiver = receiver::fresh();
    let mut stand = turns::begin();
    for _ in 1..u64::MAX {
        let turn = turns::next_turn(space, page, stand, line::LINE_MOST);
        let Turn::Entry(from, to, line) = turn else {
            return;
        };
        let told = take_entry(page, line, receiver, &space[from..to], output, records);
        receiver = told.receiver;
        stand = turns::end_line(page, line, told.at);
    }
}

fn main() {
    let mut space = [0u8; feed::SPACE];
    let mut page = [0u8; 131072];
    let mut output = [0u8; receiver::OUTPUT_MOST];
    let mut records = [0u8; receiver::OUTPUT_MOST];
    run(&mut space, &mut page, &mut output, &mut records);
}
