// The plain reading of touch messages, and the strict one.
#![tactic(auto)]

mod judge;
mod passes;

ghost use Rattle.std.specs.Prelude.{◌≡◌};
ghost use Rattle.paper.specs.Refusals.{number};
ghost use Rattle.reading.specs.Plain.{refusal, ReadsBy, ReadsPlainly, ReadsStrictly};

use paper::{Milliseconds, Refusal};

// What the plain reading answers: a refusal's number, 0 for none; encodeTime; and how many records it wrote.
#[repr(C)]
#[derive(Clone, Copy)]
pub struct PlainAnswer {
    pub refusal: u8,
    pub time: Milliseconds,
    pub records: usize,
}

// A refusal answers its number, and 0 beside it.
fn refused(e: Refusal) -> PlainAnswer
    ensures { result ≡ refusal (number e) }
{
    PlainAnswer {
        refusal: e.number(),
        time: Milliseconds(0),
        records: 0,
    }
}

// Reads a touch message, strictly or not, and writes the records of its frames, or answers the first fault and touches nothing.
pub fn read(message: &[u8], output: &mut [u8], strictly: bool) -> PlainAnswer
    ensures { ReadsBy strictly message.now result output.old output.new }
{
    let (head, frames) = match judge::judge(message, strictly) {
        Ok(judged) => judged,
        Err(e) => return refused(e),
    };
    let records = passes::count_records(frames, head.frames);
    if output.len() < house::RECORD_BYTES * records {
        return refused(Refusal::NoRoom);
    }
    passes::write_frames(output, frames, head.frames);
    PlainAnswer {
        refusal: 0,
        time: head.time,
        records,
    }
}

// The plain reading: integers of any length, and minus zero as zero.
pub fn plain(message: &[u8], output: &mut [u8]) -> PlainAnswer
    ensures { ReadsPlainly message.now result output.old output.new }
{
    read(message, output, false)
}

// The same with 6 for an integer that is not in its only form.
pub fn plain_strictly(message: &[u8], output: &mut [u8]) -> PlainAnswer
    ensures { ReadsStrictly message.now result output.old output.new }
{
    read(message, output, true)
}
