// Document 01's bench program but for its input: feeds the entries of a bench file to one fresh receiver, and prints a line for each.
#![tactic(auto)]

ghost use Rattle.std.specs.Prelude.{◌+◌, ◌*◌, ◌<◌, ◌≤◌, length, ◌≡◌};
ghost use Rattle.intake.specs.Feeding.{answer_numbers};
ghost use Rattle.lines.specs.Page.{text_of, Added, Prints};
ghost use Rattle.report.specs.Report.{line_of, lines_of, last_of, line_most, suffices, PrintsFile};

use feed::Window;

// A proved loop has to end, and nothing says that an input does: it stops at a number that no run reaches.
const LAST: u64 = 0x4000_0000_0000_0000;

// The longest line: six numbers, what stands between them, and the line's end.
const LINE_MOST: usize = 126;

// Adds the line of an entry: its number, the refusal, the frames injected, ignored and cancelled, and the records.
fn add_line(page: &mut [u8], place: usize, number: u64, answer: &[u32]) -> usize
    requires { answer_numbers ≤ length answer.now }
    ensures { Added (line_of number answer.now) place result page.old page.new }
{
    let mut at = lines::add_number(page, place, number);
    at = lines::add_count(page, at, answer[0]);
    at = lines::add_count(page, at, answer[1]);
    at = lines::add_count(page, at, answer[2]);
    at = lines::add_count(page, at, answer[3]);
    at = lines::add_count(page, at, answer[5]);
    lines::add_byte(page, at, b'\n')
}

// Adds a line whole: the page is printed first where it has no room for any line.
fn print_line(page: &mut [u8], place: usize, number: u64, answer: &[u32]) -> usize
    requires { (answer_numbers ≤ length answer.now) × (line_most ≤ length page.old) × (place ≤ length page.old) }
    ensures { Prints (text_of (line_of number answer.now)) place result page.old page.new }
{
    let at = lines::turn_over(page, place, LINE_MOST);
    add_line(page, at, number, answer)
}

// The lines of so many answers.
fn print_lines(page: &mut [u8], place: usize, first: u64, answers: &[u32], entries: usize) -> usize
    requires { (answer_numbers * entries ≤ length answers.now) × (first + entries < 18446744073709551616) × (line_most ≤ length page.old) × (place ≤ length page.old) }
    ensures { Prints (text_of (lines_of first entries answers.now)) place result page.old page.new }
{
    let mut at = place;
    let mut from: usize = 0;
    let mut number = first;
    let mut left = entries;
    while 0 < left {
        at = print_line(page, at, number, &answers[from..]);
        from += intake::ANSWER_NUMBERS;
        number += 1;
        left -= 1;
    }
    at
}

// The line of an entry that is cut, where the input ends inside one.
fn print_last(page: &mut [u8], place: usize, window: Window, number: u64) -> usize
    requires { (line_most ≤ length page.old) × (place ≤ length page.old) }
    ensures { Prints (text_of (last_of window number)) place result page.old page.new }
{
    if window.at < window.end {
        let at = lines::turn_over(page, place, LINE_MOST);
        return lines::add_cut(page, at, number);
    }
    place
}

// Whether what is lent has room for any entry, for an answer, for what any message writes, and for any line.
fn suffice(space: usize, answers: usize, output: usize, page: usize) -> bool
    ensures { result ≡ suffices space answers output page }
{
    if space < feed::ENTRY_MOST {
        return false;
    }
    if answers < intake::ANSWER_NUMBERS {
        return false;
    }
    if output < receiver::OUTPUT_MOST {
        return false;
    }
    LINE_MOST <= page
}

// Feeds a file that is open for reading, and prints its lines; answers the number that a further entry would have.
fn print_entries(
    input: i32,
    space: &mut [u8],
    answers: &mut [u32],
    output: &mut [u8],
    page: &mut [u8],
) -> u64
    requires { line_most ≤ length page.old }
    ensures { 1 ≤ result }
{
    let mut round = rounds::begin();
    let mut number: u64 = 1;
    let mut at: usize = 0;
    while number < LAST {
        round = rounds::go_on(input, space, round, answers, output);
        let entries = round.entries;
        if entries == 0 {
            let end = print_last(page, at, round.window, number);
            lines::write_out(page, end);
            return number;
        }
        at = print_lines(page, at, number, answers, entries);
        number += entries as u64;
    }
    lines::write_out(page, at);
    number
}

// Prints the lines of a bench file that is open for reading, each whole, and answers the number that a further entry would have; 0, before
// anything is read, where something that is lent is too small for any work.
pub fn print_file(
    input: i32,
    space: &mut [u8],
    answers: &mut [u32],
    output: &mut [u8],
    page: &mut [u8],
) -> u64
    ensures { PrintsFile result space.old space.new answers.old answers.new output.old output.new page.old page.new }
{
    if suffice(space.len(), answers.len(), output.len(), page.len()) {
        return print_entries(input, space, answers, output, page);
    }
    0
}
