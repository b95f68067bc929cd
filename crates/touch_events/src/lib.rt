// Touch messages: judged whole, run dry where their records might not fit, and then run.
#![tactic(auto)]

ghost use Rattle.std.specs.Prelude.{◌≡◌, cond, not};
ghost use Rattle.contacts.specs.Ruling.{arrays_from};
ghost use Rattle.channel.specs.Marks.{off, mark};
ghost use Rattle.receiver.specs.Receive.{of_parts};
ghost use Rattle.receiver.specs.Events.{turned, Gives, touch_effect};
ghost use Rattle.touch_events.specs.Carrying.{answer_of_run, ample, Tallies, Carries, Settles};

use framing::BodyHead;
use paper::{Milliseconds, Refusal};
use receiver::{Answer, Marks, Turn, refuse};
use runs::Run;

// How many contacts there are: an id is a byte.
const CONTACTS: usize = 256;

// encodeTime as it is answered: 0 where the client asked for no time stamps.
fn time_for(time: Milliseconds, untimed: bool) -> Milliseconds
    ensures { result ≡ cond untimed (record { 0 = 0 }) time }
{
    if untimed {
        return Milliseconds(0);
    }
    time
}

// The mark of a mode.
fn ignoring_in(running: bool) -> u8
    ensures { result ≡ mark (not running) }
{
    if running {
        return 0;
    }
    1
}

// The answer of a run.
fn answer_to(run: Run, time: Milliseconds) -> Answer
    ensures { result ≡ answer_of_run run time }
{
    Answer {
        refusal: 0,
        injected: run.injected,
        ignored: run.ignored,
        cancelled: run.cancelled,
        time,
        records: run.records,
    }
}

// Whether an output of so many bytes has room for whatever a body of so many gives: two bytes of it give at most one record, beside a cancel
// for each contact.
fn is_ample(bytes: usize, room: usize) -> bool
    ensures { result ≡ ample bytes room }
{
    bytes / 2 + CONTACTS <= room / house::RECORD_BYTES
}

// How many records the frames give, by a run over a copy of the contacts and the set; nothing is written.
fn tally(
    marks: Marks,
    running: bool,
    n: u8,
    frames: &[u8],
    output: &mut [u8],
    states: &[u8; 256],
    xs: &[i32; 256],
    ys: &[i32; 256],
    held: &[u8; 256],
) -> usize
    requires { running ≡ off marks.ignoring }
    ensures { Tallies (of_parts marks (arrays_from states.now xs.now ys.now held.now)) n frames.now result output.old output.new }
{
    let settings = marks.settings;
    let untimed = channel::is_untimed(settings.flags);
    let mut some_states = *states;
    let active = contacts::count_active(&some_states);
    let mut some_xs = *xs;
    let mut some_ys = *ys;
    let mut some_held = *held;
    let run = runs::run_frames(
        output,
        false,
        frames,
        n,
        untimed,
        settings.most,
        running,
        active,
        &mut some_states,
        &mut some_xs,
        &mut some_ys,
        &mut some_held,
    );
    run.records
}

// The frames of a message carried out: their records, the receiver after them, and the answer.
fn carry_out(
    marks: Marks,
    head: BodyHead,
    frames: &[u8],
    output: &mut [u8],
    states: &mut [u8; 256],
    xs: &mut [i32; 256],
    ys: &mut [i32; 256],
    held: &mut [u8; 256],
) -> Turn
    ensures { Carries (of_parts marks (arrays_from states.old xs.old ys.old held.old)) head frames.now output.old (turned result (arrays_from states.new xs.new ys.new held.new)) output.new }
{
    let settings = marks.settings;
    let untimed = channel::is_untimed(settings.flags);
    let active = contacts::count_active(states);
    let run = runs::run_frames(
        output,
        true,
        frames,
        head.frames,
        untimed,
        settings.most,
        marks.ignoring == 0,
        active,
        states,
        xs,
        ys,
        held,
    );
    let time = head.time;
    let answer = answer_to(run, time_for(time, untimed));
    Turn {
        marks: Marks {
            begun: channel::begun_after(marks.begun, head.frames as usize),
            ignoring: ignoring_in(run.running),
            ..marks
        },
        answer,
    }
}

// The frames of a message, counted first, since the output might be too short for their records: carried out, or refused.
fn carry_counted(
    marks: Marks,
    running: bool,
    head: BodyHead,
    frames: &[u8],
    output: &mut [u8],
    states: &mut [u8; 256],
    xs: &mut [i32; 256],
    ys: &mut [i32; 256],
    held: &mut [u8; 256],
) -> Turn
    requires { running ≡ off marks.ignoring }
    ensures { Settles (of_parts marks (arrays_from states.old xs.old ys.old held.old)) head frames.now output.old (turned result (arrays_from states.new xs.new ys.new held.new)) output.new }
{
    let records = tally(
        marks,
        running,
        head.frames,
        frames,
        output,
        states,
        xs,
        ys,
        held,
    );
    if house::RECORD_BYTES * records <= output.len() {
        return carry_out(marks, head, frames, output, states, xs, ys, held);
    }
    refuse(marks, Refusal::NoRoom.number())
}

// A touch message's body. The two calls for a running and an ignoring receiver differ in nothing else: being two, they are compiled as
// calls, and the copy of the contacts that counting takes stays off the stack of a message that needs none.
pub fn receive_touch(
    marks: Marks,
    body: &[u8],
    output: &mut [u8],
    states: &mut [u8; 256],
    xs: &mut [i32; 256],
    ys: &mut [i32; 256],
    held: &mut [u8; 256],
) -> Turn
    ensures { Gives (of_parts marks (arrays_from states.old xs.old ys.old held.old)) (touch_effect (of_parts marks (arrays_from states.old xs.old ys.old held.old)) body.now) output.old (turned result (arrays_from states.new xs.new ys.new held.new)) output.new }
{
    let settings = marks.settings;
    let judged = channel::is_judged(settings.flags, marks.begun);
    let (head, frames) = match touch_frames::check_body(body, judged, false) {
        Ok(checked) => checked,
        Err(e) => return refuse(marks, e.number()),
    };
    if is_ample(body.len(), output.len()) {
        return carry_out(marks, head, frames, output, states, xs, ys, held);
    }
    if marks.ignoring == 0 {
        return carry_counted(marks, true, head, frames, output, states, xs, ys, held);
    }
    carry_counted(marks, false, head, frames, output, states, xs, ys, held)
}
