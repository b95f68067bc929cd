// What the programs `plain` and `strict` share: a line for each entry of a bench file, with its number, the refusal, encodeTime and
// records, and after an accepted one what writing it back gives.
#![tactic(auto)]

ghost use Rattle.std.specs.Prelude.{◌+◌, ◌*◌, ◌≤◌, length};
ghost use Rattle.house.specs.Fields.{record_bytes};
ghost use Rattle.lines.specs.Page.{Added};
ghost use Rattle.readings.specs.Line.{outcome_text, back_text, read_text, rest_most, Tells};
ghost use Rattle.readings.specs.Run.{Enough, Keeps, RunsOver};

use reading::PlainAnswer;
use turns::{Stand, Turn};

// The longest line: the number of at most 20 digits; the refusal, encodeTime and the records, each a space and at most 20 digits;
// ` becomes`, a space and at most 20 digits; and the line's end.
const LINE_MOST: usize = 20 + 3 * 21 + 8 + 21 + 1;

// What a reading answered.
fn add_answer(page: &mut [u8], place: usize, answer: PlainAnswer) -> usize
    ensures { Added (read_text answer) place result page.old page.new }
{
    let refused = lines::add_field(page, place, answer.refusal as u64);
    let timed = lines::add_field(page, refused, answer.time.0 as u64);
    lines::add_field(page, timed, answer.records as u64)
}

// Whether a message came back the same, and where it was read leniently its length otherwise.
fn add_outcome(page: &mut [u8], at: usize, same: bool, n: usize, strictly: bool) -> usize
    ensures { Added (outcome_text strictly same n) at result page.old page.new }
{
    if same {
        return lines::add_text(page, at, b" same");
    }
    if strictly {
        return lines::add_text(page, at, b" differs");
    }
    let word = lines::add_text(page, at, b" becomes");
    lines::add_field(page, word, n as u64)
}

// A message that was accepted is written back from the time and the records that its reading left, and what came of it is said.
fn add_back(
    page: &mut [u8],
    place: usize,
    message: &[u8],
    output: &[u8],
    answer: PlainAnswer,
    strictly: bool,
) -> usize
    requires { record_bytes * answer.records ≤ length output.now }
    ensures { Added (back_text strictly message.now answer output.now) place result page.old page.new }
{
    if answer.refusal != 0 {
        return place;
    }
    let end = house::RECORD_BYTES * answer.records;
    let mut again = [0u8; messages::MESSAGE_MOST];
    let written = writing::write_touch(&mut again, answer.time, &output[..end]);
    let same = check::same(message, &again[..written.bytes]);
    add_outcome(page, place, same, written.bytes, strictly)
}

// Reads a message and says the rest of its line, whole.
fn tell(page: &mut [u8], line: Stand, message: &[u8], output: &mut [u8], strictly: bool) -> Stand
    requires { line.at + rest_most ≤ length page.old }
    ensures { Tells strictly message.now line page.old page.new output.old output.new result }
{
    let answer = reading::read(message, output, strictly);
    let answered = add_answer(page, line.at, answer);
    let at = add_back(page, answered, message, output, answer, strictly);
    turns::end_line(page, line, at)
}

// A proved loop has to end, and nothing says that an input does: it stops at a number that no run reaches.
fn print_lines(space: &mut [u8], page: &mut [u8], output: &mut [u8], strictly: bool)
    requires { Enough space.old page.old output.old }
    ensures { Keeps space.old space.new page.old page.new output.old output.new }
{
    let mut stand = turns::begin();
    for _ in 1..u64::MAX {
        let turn = turns::next_turn(space, page, stand, LINE_MOST);
        let Turn::Entry(from, to, line) = turn else {
            return;
        };
        stand = tell(page, line, &space[from..to], output, strictly);
    }
}

// Reads standard input and prints its lines; or, where a buffer is too small for the longest entry, line or records, does nothing and
// answers false.
pub fn run(space: &mut [u8], page: &mut [u8], output: &mut [u8], strictly: bool) -> bool
    ensures { RunsOver space.old space.new page.old page.new output.old output.new result }
{
    if space.len() < feed::ENTRY_MOST {
        return false;
    }
    if page.len() < LINE_MOST {
        return false;
    }
    if output.len() < receiver::OUTPUT_MOST {
        return false;
    }
    print_lines(space, page, output, strictly);
    true
}
