// The frames of a message, run through the table of contacts one after the other.
#![tactic(auto)]

mod carry;
mod step;

ghost use Rattle.std.specs.Prelude.{◌+◌, ◌*◌, ◌≤◌, ◌≡◌};
ghost use Rattle.contacts.specs.Ruling.{arrays_from};
ghost use Rattle.runs.specs.Runs.{timed_head, started, Passes, Runs};

use house::Head;
use paper::Microseconds;

// What a run over frames has come to, beside the table and the set: the mode, how many contacts are active, what became of the frames, and
// how many records they give.
#[derive(Clone, Copy)]
pub struct Run {
    pub running: bool,
    pub active: u16,
    pub injected: u8,
    pub ignored: u8,
    pub cancelled: u8,
    pub records: usize,
}

// A head as it is written: with no offset where the client asked for none.
fn timed(head: Head, untimed: bool) -> Head
    ensures { result ≡ timed_head untimed head }
{
    if untimed {
        return Head {
            offset: Microseconds(0),
            ..head
        };
    }
    head
}

// Where a run begins.
fn start(running: bool, active: u16) -> Run
    ensures { result ≡ started running active }
{
    Run {
        running,
        active,
        injected: 0,
        ignored: 0,
        cancelled: 0,
        records: 0,
    }
}

// The place behind so many records, where the room reaches so far.
fn pass(pos: usize, records: usize, room: usize) -> usize
    requires { (pos ≤ room) × (records ≤ 65536) }
    ensures { Passes pos records room result }
{
    let more = house::RECORD_BYTES * records;
    if more <= room - pos {
        return pos + more;
    }
    pos
}

// Runs n frames, and writes their records where wet is true.
pub fn run_frames(
    out: &mut [u8],
    wet: bool,
    frames: &[u8],
    n: u8,
    untimed: bool,
    most: u16,
    running: bool,
    active: u16,
    states: &mut [u8; 256],
    xs: &mut [i32; 256],
    ys: &mut [i32; 256],
    held: &mut [u8; 256],
) -> Run
    ensures { Runs n frames.now untimed wet running most active result (arrays_from states.old xs.old ys.old held.old) (arrays_from states.new xs.new ys.new held.new) out.old out.new }
{
    let mut run = start(running, active);
    let mut pos: usize = 0;
    let mut left = frames;
    for _ in 0..n {
        let (head, contacts) = frame_records::find_head(left);
        let head = timed(head, untimed);
        let before = run.records;
        let (next, behind) = step::step(
            &mut out[pos..],
            wet,
            contacts,
            head,
            most,
            run,
            states,
            xs,
            ys,
            held,
        );
        run = next;
        left = behind;
        pos = pass(pos, run.records - before, out.len());
    }
    run
}
