// The records that a fresh receiver writes for the entries of a bench file, raw, one after the other: a record file.
#![tactic(auto)]

ghost use Rattle.std.specs.Prelude.{◌*◌, ◌≤◌, length};
ghost use Rattle.house.specs.Fields.{record_bytes};

// Standard output, as the system numbers it.
const STANDARD_OUTPUT: i32 = 1;

// Writes the records at the front of the output.
fn write_records(output: &[u8], records: usize)
    requires { record_bytes * records ≤ length output.now }
{
    let end = house::RECORD_BYTES * records;
    io::write_all(STANDARD_OUTPUT, &output[..end]);
}

// A proved loop has to end, and nothing says that an input does: it stops after more rounds than any run has.
fn run(space: &mut [u8], answers: &mut [u32], output: &mut [u8]) {
    let mut round = rounds::begin();
    for _ in 0..u64::MAX {
        round = rounds::go_on(feed::STANDARD_INPUT, space, round, answers, output);
        if round.entries == 0 {
            return;
        }
        write_records(output, round.records);
    }
}

fn main() {
    let mut space = [0u8; 131072];
    let mut answers = [0u32; 3072];
    let mut output = [0u8; 2 * receiver::OUTPUT_MOST];
    run(&mut space, &mut answers, &mut output);
}
