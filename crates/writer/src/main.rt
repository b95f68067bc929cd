// The touch writer over entries of encode time and records: each entry's number, the refusal, the bytes, and a message in
// hexadecimal.
#![tactic(auto)]

ghost use Rattle.std.specs.Prelude.{◌+◌, ◌≤◌, length};
ghost use Rattle.lines.specs.Page.{Added};
ghost use Rattle.turns.specs.Turns.{TellsLine};
ghost use Rattle.writer.specs.Line.{line_most, rest_most, said_of};
ghost use Rattle.feed.specs.Within.{entry_most};

use paper::Milliseconds;
use turns::{Stand, Turn};

// The longest line: the number, the refusal and the bytes, each of at most 20 digits, two of them after a space; a space and two digits for
// each byte of a message; and the line's end.
const LINE_MOST: usize = 20 + 2 * 21 + 1 + 2 * messages::MESSAGE_MOST + 1;

// What is said of an entry after its number.
fn add_writing(page: &mut [u8], place: usize, entry: &[u8]) -> usize
    ensures { Added (said_of entry.now) place result page.old page.new }
{
    if entry.len() < 4 {
        return lines::add_text(page, place, b" short");
    }
    let time = Milliseconds(entries::join_four(entry[0], entry[1], entry[2], entry[3]));
    let mut output = [0u8; messages::MESSAGE_MOST];
    let written = writing::write_touch(&mut output, time, &entry[4..]);
    lines::add_written(page, place, written, &output)
}

// The rest of an entry's line, whole.
fn tell(page: &mut [u8], line: Stand, entry: &[u8]) -> Stand
    requires { line.at + rest_most ≤ length page.old }
    ensures { TellsLine (said_of entry.now) line page.old page.new result }
{
    let at = add_writing(page, line.at, entry);
    turns::end_line(page, line, at)
}

// The space holds the longest entry, which has 65,535 bytes behind two of length, and the page the longest line.
// A proved loop has to end, and nothing says that an input does: it stops at a number that no run reaches.
fn run(space: &mut [u8], page: &mut [u8])
    requires { (entry_most ≤ length space.old) × (line_most ≤ length page.old) }
{
    let mut stand = turns::begin();
    for _ in 1..u64::MAX {
        let turn = turns::next_turn(space, page, stand, LINE_MOST);
        let Turn::Entry(from, to, line) = turn else {
            return;
        };
        stand = tell(page, line, &space[from..to]);
    }
}

fn main() {
    let mut space = [0u8; 131072];
    let mut page = [0u8; 65536];
    run(&mut space, &mut page);
}
