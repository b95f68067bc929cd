// Runs the integers and the house records over vectors from standard input, one line for each:
// r an integer read in its only form, a in any form, w an integer written, h a head written, H a head of a count in two bytes written,
// c a contact written, d a record read.
#![tactic(auto)]

mod parse;
mod print;
mod records;
mod wholes;

ghost use Rattle.std.specs.Prelude.{◌≤◌, length};
ghost use Rattle.feed.specs.Within.{entry_most};

use feed::{Next, Window};

// What one vector prints after its number.
fn run_vector(vector: &[u8]) {
    if vector.len() < 1 {
        print::word(b"unknown");
        return;
    }
    let body = &vector[1..];
    match vector[0] {
        b'r' => wholes::run_read(body, true),
        b'a' => wholes::run_read(body, false),
        b'w' => wholes::run_write(body),
        b'h' => records::run_head(body),
        b'H' => records::run_wide_head(body),
        b'c' => records::run_contact(body),
        b'd' => records::run_record(body),
        _ => print::word(b"unknown"),
    }
}

// One entry: its line, and the window after it. A window that holds nothing ends the run.
fn turn(space: &mut [u8], window: Window, number: u64) -> Next {
    let next = feed::next_entry(space, window);
    if let Next::Entry(at, n, _) = next {
        let end = at + n;
        print::begin(number);
        run_vector(&space[at..end]);
        print::end();
    }
    if let Next::Cut = next {
        print::begin(number);
        print::word(b"cut");
        print::end();
    }
    next
}

// The space holds the longest entry, which has 65,535 bytes behind two of length.
// A proved loop has to end, and nothing says that an input does: it stops at a number that no run reaches.
fn run(space: &mut [u8])
    requires { entry_most ≤ length space.old }
{
    let mut window = feed::opened();
    for number in 1..u64::MAX {
        let next = turn(space, window, number);
        let Next::Entry(_, _, after) = next else {
            return;
        };
        window = after;
    }
}

fn main() {
    let mut space = [0u8; 131072];
    run(&mut space);
}
