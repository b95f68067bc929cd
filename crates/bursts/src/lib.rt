// A burst of messages in one call: a buffer of bench-file entries, fed to one receiver, with an answer for each.
#![tactic(auto)]

ghost use Rattle.std.specs.Prelude.{◌≡◌, length};
ghost use Rattle.contacts.specs.Ruling.{arrays_from};
ghost use Rattle.receiver.specs.Receive.{of_parts};
ghost use Rattle.intake.specs.Feeding.{entry_bytes};
ghost use Rattle.bursts.specs.Batch.{messages_in, batched, ReceivesAll};

use paper::Refusal;
use receiver::{Marks, Receiver};

// What becomes of a batch: a refusal's number, 0 for none; how many entries were fed, and how many records they wrote.
#[repr(C)]
#[derive(Clone, Copy)]
pub struct Batch {
    pub refusal: u8,
    pub entries: usize,
    pub records: usize,
}

// The receiver after a batch, and the answer.
#[derive(Clone, Copy)]
pub struct ReceivedAll {
    pub receiver: Receiver,
    pub batch: Batch,
}

// The marks after a batch, and the answer.
#[repr(C)]
#[derive(Clone, Copy)]
pub struct BatchTurn {
    pub marks: Marks,
    pub batch: Batch,
}

// The whole entries at the front of a buffer: how many they are, and their bytes.
#[derive(Clone, Copy)]
pub(crate) struct Counted {
    pub entries: usize,
    pub bytes: usize,
}

fn count_entries(buffer: &[u8]) -> Counted
    ensures { (result.entries ≡ length (messages_in buffer.now)) × (result.bytes ≡ entry_bytes (messages_in buffer.now)) }
{
    let mut entries: usize = 0;
    let mut bytes: usize = 0;
    while bytes < buffer.len() {
        let next = entries::read_front(&buffer[bytes..]);
        let Some(n) = next else {
            break;
        };
        entries += 1;
        bytes = bytes + 2 + n;
    }
    Counted { entries, bytes }
}

// Whether a buffer's last entry is complete, and a list of so many numbers has a place for each answer.
fn is_batch(buffer: &[u8], numbers: usize) -> bool
    ensures { result ≡ batched buffer.now numbers }
{
    let counted = count_entries(buffer);
    if counted.bytes != buffer.len() {
        return false;
    }
    counted.entries <= numbers / intake::ANSWER_NUMBERS
}

// Feeds all entries of a buffer to a receiver that is lent in parts, each with the output that is left; or refuses them all, before any
// is fed.
pub fn receive_all_parts(
    marks: Marks,
    buffer: &[u8],
    answers: &mut [u32],
    output: &mut [u8],
    states: &mut [u8; 256],
    xs: &mut [i32; 256],
    ys: &mut [i32; 256],
    held: &mut [u8; 256],
) -> BatchTurn
    ensures { ReceivesAll (of_parts marks (arrays_from states.old xs.old ys.old held.old)) buffer.now (of_parts result.marks (arrays_from states.new xs.new ys.new held.new)) result.batch answers.old answers.new output.old output.new }
{
    if !is_batch(buffer, answers.len()) {
        return BatchTurn {
            marks,
            batch: Batch {
                refusal: Refusal::BadBatch.number(),
                entries: 0,
                records: 0,
            },
        };
    }
    let fed = intake::feed_parts(marks, buffer, 0, answers, output, states, xs, ys, held);
    BatchTurn {
        marks: fed.marks,
        batch: Batch {
            refusal: 0,
            entries: fed.entries,
            records: fed.records,
        },
    }
}

// Feeds all entries of a buffer to a receiver, by value.
pub fn receive_all(
    receiver: Receiver,
    buffer: &[u8],
    answers: &mut [u32],
    output: &mut [u8],
) -> ReceivedAll
    ensures { ReceivesAll receiver buffer.now result.receiver result.batch answers.old answers.new output.old output.new }
{
    let mut states = receiver.states;
    let mut xs = receiver.xs;
    let mut ys = receiver.ys;
    let mut held = receiver.held;
    let marks = receiver::marks_of(receiver);
    let turn = receive_all_parts(
        marks,
        buffer,
        answers,
        output,
        &mut states,
        &mut xs,
        &mut ys,
        &mut held,
    );
    ReceivedAll {
        receiver: receiver::of_parts(turn.marks, states, xs, ys, held),
        batch: turn.batch,
    }
}
