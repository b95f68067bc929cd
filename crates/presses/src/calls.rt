// The parts of a call that need neither buttons nor records: where its runs begin, and its answer.
ghost use Rattle.std.specs.Prelude.{◌≡◌};
ghost use Rattle.presses.specs.Turns.{begun_at, counting_from, writing_from, concluded};

use crate::{Picked, Tally};

// A run that begins at a place.
pub fn begin(from: usize) -> Tally
    ensures { result ≡ begun_at from }
{
    Tally { at: from, count: 0 }
}

// Where the run that counts begins, of records of so many bytes and a list of so many numbers: at the end, where there is room for a
// choice for each record, and nothing has to be counted.
pub fn counting_from(bytes: usize, numbers: usize) -> usize
    ensures { result ≡ counting_from bytes numbers }
{
    if bytes / house::RECORD_BYTES < numbers / 2 {
        bytes
    } else {
        0
    }
}

// Where the run that writes begins: at the end, where the records are refused, so that nothing is done.
pub fn writing_from(refusal: u8, bytes: usize) -> usize
    ensures { result ≡ writing_from refusal bytes }
{
    if refusal == 0 { 0 } else { bytes }
}

// The answer. (A run of no records counts none.)
pub fn conclude(refusal: u8, run: Tally) -> Picked
    ensures { result ≡ concluded refusal run }
{
    Picked {
        refusal,
        count: run.count,
    }
}
