// The entries of a bench file, fed to a receiver: the bench program's loop, without reading and printing.
#![tactic(auto)]

ghost use Rattle.std.specs.Prelude.{◌≡◌, ◌≤◌, ◌<◌, length};
ghost use Rattle.slices.specs.Writing.{laid};
ghost use Rattle.contacts.specs.Ruling.{arrays_from};
ghost use Rattle.receiver.specs.Receive.{of_parts};
ghost use Rattle.intake.specs.Feeding.{next_in, answer_numbers, numbers_of, fed_of, TakesEntries};

use receiver::{Answer, Marks, Receiver};

// How many numbers an answer has: the refusal, frames injected, ignored and cancelled, encodeTime, records.
pub const ANSWER_NUMBERS: usize = 6;

// The receiver after the entries that were fed, how many they are, their bytes in the file, and how many records they wrote.
#[derive(Clone, Copy)]
pub struct Fed {
    pub receiver: Receiver,
    pub entries: usize,
    pub used: usize,
    pub records: usize,
}

// The same of a receiver that is lent in parts: its marks.
#[derive(Clone, Copy)]
pub struct FedParts {
    pub marks: Marks,
    pub entries: usize,
    pub used: usize,
    pub records: usize,
}

// The entry at the front of a part of a bench file, if it is whole and at least so much output is left.
fn next_entry(file: &[u8], least: usize, room: usize) -> Option<usize>
    ensures { result ≡ next_in least file.now room }
{
    if room < least {
        return None;
    }
    entries::read_front(file)
}

// Puts the numbers of an answer at the front of a list.
fn put_answer(answers: &mut [u32], answer: Answer)
    requires { (answer_numbers ≤ length answers.old) × (answer.records < 4294967296) }
    ensures { answers.new ≡ laid answers.old (numbers_of answer) }
{
    answers[0] = answer.refusal as u32;
    answers[1] = answer.injected as u32;
    answers[2] = answer.ignored as u32;
    answers[3] = answer.cancelled as u32;
    answers[4] = answer.time.0;
    answers[5] = answer.records as u32;
}

// The whole entries at the front of a part of a bench file, fed to a receiver that is lent in parts, so that its contacts are copied
// for none of them.
pub fn feed_parts(
    mut marks: Marks,
    file: &[u8],
    least: usize,
    answers: &mut [u32],
    output: &mut [u8],
    states: &mut [u8; 256],
    xs: &mut [i32; 256],
    ys: &mut [i32; 256],
    held: &mut [u8; 256],
) -> FedParts
    ensures { TakesEntries least (of_parts marks (arrays_from states.old xs.old ys.old held.old)) file.now (fed_of result (arrays_from states.new xs.new ys.new held.new)) answers.old answers.new output.old output.new }
{
    let places = answers.len() / ANSWER_NUMBERS;
    let mut entries: usize = 0;
    let mut used: usize = 0;
    let mut records: usize = 0;
    while entries < places {
        let end = house::RECORD_BYTES * records;
        let next = next_entry(&file[used..], least, output.len() - end);
        let Some(n) = next else {
            break;
        };
        let from = used + 2;
        let to = from + n;
        let message = &file[from..to];
        let turn = receiving::receive_parts(
            marks,
            message,
            &mut output[end..],
            states,
            xs,
            ys,
            held,
        );
        let place = ANSWER_NUMBERS * entries;
        put_answer(&mut answers[place..], turn.answer);
        marks = turn.marks;
        entries += 1;
        used = to;
        records += turn.answer.records;
    }
    FedParts {
        marks,
        entries,
        used,
        records,
    }
}

// Feeds the whole entries at the front of a part of a bench file to a receiver one after the other, each with the output that is
// left: as long as an answer's place is left in `answers`, and at least `least` bytes of output.
pub fn take_entries(
    receiver: Receiver,
    file: &[u8],
    least: usize,
    answers: &mut [u32],
    output: &mut [u8],
) -> Fed
    ensures { TakesEntries least receiver file.now result answers.old answers.new output.old output.new }
{
    let mut states = receiver.states;
    let mut xs = receiver.xs;
    let mut ys = receiver.ys;
    let mut held = receiver.held;
    let marks = receiver::marks_of(receiver);
    let fed = feed_parts(
        marks,
        file,
        least,
        answers,
        output,
        &mut states,
        &mut xs,
        &mut ys,
        &mut held,
    );
    Fed {
        receiver: receiver::of_parts(fed.marks, states, xs, ys, held),
        entries: fed.entries,
        used: fed.used,
        records: fed.records,
    }
}
