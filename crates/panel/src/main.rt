// A panel over entries that are commands: each entry's number, the refusal, the bytes, and a message that was written in
// hexadecimal.
#![tactic(auto)]

ghost use Rattle.std.specs.Prelude.{◌≡◌, ◌+◌, ◌≤◌, length};
ghost use Rattle.messages.specs.Header.{most_bytes};
ghost use Rattle.lines.specs.Page.{Added};
ghost use Rattle.turns.specs.Turns.{TellsLine};
ghost use Rattle.panel.specs.Line.{line_most, rest_most, said_of};
ghost use Rattle.feed.specs.Within.{entry_most};

use commands::Obeyed;
use turns::{Stand, Turn};

// The longest line: the number, the refusal and the bytes, each of at most 20 digits, two of them after a space; a space and two digits for
// each byte of a message; and the line's end.
const LINE_MOST: usize = 20 + 2 * 21 + 1 + 2 * messages::MESSAGE_MOST + 1;

// What is said of an entry after its number.
fn add_answer(page: &mut [u8], place: usize, obeyed: Obeyed, output: &[u8]) -> usize
    ensures { Added (said_of obeyed output.now) place result page.old page.new }
{
    if obeyed.known {
        return lines::add_written(page, place, obeyed.written, output);
    }
    lines::add_text(page, place, b" bad")
}

// The rest of an entry's line, whole.
fn tell(page: &mut [u8], line: Stand, obeyed: Obeyed, output: &[u8]) -> Stand
    requires { (line.at + rest_most ≤ length page.old) × (obeyed.written.bytes ≤ most_bytes) }
    ensures { TellsLine (said_of obeyed output.now) line page.old page.new result }
{
    let at = add_answer(page, line.at, obeyed, output);
    turns::end_line(page, line, at)
}

// The space holds the longest entry, which has 65,535 bytes behind two of length, the page the longest line, and the output the longest
// message and no more.
// A proved loop has to end, and nothing says that an input does: it stops at a number that no run reaches.
fn run(space: &mut [u8], page: &mut [u8], output: &mut [u8])
    requires { (entry_most ≤ length space.old) × (line_most ≤ length page.old) × (length output.old ≡ most_bytes) }
{
    let mut panel = panels::fresh();
    let mut stand = turns::begin();
    for _ in 1..u64::MAX {
        let turn = turns::next_turn(space, page, stand, LINE_MOST);
        let Turn::Entry(from, to, line) = turn else {
            return;
        };
        let obeyed = commands::obey(panel, &space[from..to], output);
        panel = obeyed.panel;
        stand = tell(page, line, obeyed, output);
    }
}

fn main() {
    let mut space = [0u8; 131072];
    let mut page = [0u8; 65536];
    let mut output = [0u8; messages::MESSAGE_MOST];
    run(&mut space, &mut page, &mut output);
}
