// Feeds a bench file of at most 64 KiB to one receiver through the call that updates it where it stands, and then to another through the
// call that is lent its parts. Prints for each entry its number, the refusal, the records, and what was left in the receiver: the three marks
// and how many contacts are active.
#![tactic(auto)]

ghost use Rattle.std.specs.Prelude.{◌≤◌, length};
ghost use Rattle.lines.specs.Page.{text_of, Added, Prints};
ghost use Rattle.in_place.specs.Line.{line_most, left_text, line_of, cut_line, Stands};

use receiver::{Answer, Marks};

// Standard input, as the system numbers it.
const STANDARD_INPUT: i32 = 0;

// The longest line: its number and six more of at most 20 digits, these behind a space each, and the line's end. A line ` cut` is shorter.
const LINE_MOST: usize = 20 + 6 * 21 + 1;

// What an entry left in the receiver, and the line's end.
fn add_left(page: &mut [u8], place: usize, marks: Marks, active: u16) -> usize
    ensures { Added (left_text marks active) place result page.old page.new }
{
    let ready = lines::add_field(page, place, marks.ready as u64);
    let begun = lines::add_field(page, ready, marks.begun as u64);
    let ignoring = lines::add_field(page, begun, marks.ignoring as u64);
    let counted = lines::add_field(page, ignoring, active as u64);
    lines::add_byte(page, counted, b'\n')
}

// The line of an entry, whole; the page is printed before it where it has to be.
fn add_line(
    page: &mut [u8],
    place: usize,
    number: u64,
    answer: Answer,
    marks: Marks,
    active: u16,
) -> usize
    requires { Stands place page.old }
    ensures { Prints (text_of (line_of number answer marks active)) place result page.old page.new }
{
    let at = lines::turn_over(page, place, LINE_MOST);
    let numbered = lines::add_number(page, at, number);
    let refused = lines::add_field(page, numbered, answer.refusal as u64);
    let recorded = lines::add_field(page, refused, answer.records as u64);
    add_left(page, recorded, marks, active)
}

// The line of an entry that is cut.
fn add_last(page: &mut [u8], place: usize, number: u64) -> usize
    requires { Stands place page.old }
    ensures { Prints (text_of (cut_line number)) place result page.old page.new }
{
    let at = lines::turn_over(page, place, LINE_MOST);
    lines::add_cut(page, at, number)
}

// The entries of a file to a receiver where it stands, one after the other; answers where the page ends.
#[tactic(auto, using(crate::proofs::Inside::entry_inside))]
fn run(file: &[u8], page: &mut [u8], output: &mut [u8]) -> usize
    requires { line_most ≤ length page.old }
    ensures { result ≤ length page.new }
{
    let mut receiver = kangirlo::kangirlo_fresh();
    let mut number: u64 = 1;
    let mut at: usize = 0;
    let mut from: usize = 0;
    while from < file.len() {
        let Some(n) = entries::read_front(&file[from..]) else {
            return add_last(page, at, number);
        };
        let start = from + 2;
        let end = start + n;
        let received = lent::receive_lent(receiver, &file[start..end], output);
        receiver = received.receiver;
        let marks = receiver::marks_of(receiver);
        let active = contacts::count_active(&receiver.states);
        at = add_line(page, at, number, received.answer, marks, active);
        number += 1;
        from = end;
    }
    at
}

// The same to a receiver in parts.
#[tactic(auto, using(crate::proofs::Inside::entry_inside))]
fn run_parts(file: &[u8], page: &mut [u8], output: &mut [u8]) -> usize
    requires { line_most ≤ length page.old }
    ensures { result ≤ length page.new }
{
    let receiver = kangirlo::kangirlo_fresh();
    let mut marks = receiver::marks_of(receiver);
    let mut states = receiver.states;
    let mut xs = receiver.xs;
    let mut ys = receiver.ys;
    let mut held = receiver.held;
    let mut number: u64 = 1;
    let mut at: usize = 0;
    let mut from: usize = 0;
    while from < file.len() {
        let Some(n) = entries::read_front(&file[from..]) else {
            return add_last(page, at, number);
        };
        let start = from + 2;
        let end = start + n;
        let message = &file[start..end];
        let turn = kangirlo::kangirlo_receive_parts(
            marks,
            message,
            output,
            &mut states,
            &mut xs,
            &mut ys,
            &mut held,
        );
        marks = turn.marks;
        let active = contacts::count_active(&states);
        at = add_line(page, at, number, turn.answer, marks, active);
        number += 1;
        from = end;
    }
    at
}

fn main() {
    let mut file = [0u8; 65536];
    let mut page = [0u8; 65536];
    let mut output = [0u8; receiver::OUTPUT_MOST];
    let n = io::read_full(STANDARD_INPUT, &mut file);
    let at = run(&file[..n], &mut page, &mut output);
    lines::write_out(&page, at);
    let end = run_parts(&file[..n], &mut page, &mut output);
    lines::write_out(&page, end);
}
