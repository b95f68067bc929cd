// One frame.
ghost use Rattle.std.specs.Prelude.{◌+◌, ◌<◌, ◌≡◌, cond};
ghost use Rattle.slices.specs.Writing.{bytes};
ghost use Rattle.machine.specs.Held.{nobody};
ghost use Rattle.machine.specs.Machine.{cancels};
ghost use Rattle.contacts.specs.Touch.{touch_view};
ghost use Rattle.contacts.specs.Ruling.{contacts_of, table_from, arrays_from};
ghost use Rattle.runs.specs.Runs.{laid_by, frames_passed, HasRoom, ruling_on, Injects, Ignores, Cancels, Steps};

use crate::Run;
use crate::carry::carry;
use contacts::Ruling;
use house::Head;

// The set is emptied when a frame opens; while running it is not looked at.
#[tactic(auto, unfolding(machine::specs::Held::nobody))]
fn empty(running: bool, held: &mut [u8; 256])
    ensures { held.new ≡ cond running held.old nobody }
{
    if !running {
        *held = [0; 256];
    }
}

// A conforming frame: its records, where they are to be written, and its contacts in the table.
fn inject<'a>(
    out: &mut [u8],
    wet: bool,
    rest: &'a [u8],
    head: Head,
    active: u16,
    run: Run,
    states: &mut [u8; 256],
    xs: &mut [i32; 256],
    ys: &mut [i32; 256],
    held: &mut [u8; 256],
) -> (Run, &'a [u8])
    requires { HasRoom run }
    ensures { Injects head active rest.now wet run result.0 result.1.now (arrays_from states.old xs.old ys.old held.old) (arrays_from states.new xs.new ys.new held.new) out.old out.new }
{
    empty(run.running, held);
    let count = head.count as usize;
    let left = carry(out, wet, head, rest, states, xs, ys);
    let next = Run {
        running: true,
        active,
        injected: run.injected + 1,
        records: run.records + count + 1,
        ..run
    };
    (next, left)
}

// A cancel for each active contact, where they are to be written.
fn write_cancelled(out: &mut [u8], wet: bool, states: &[u8; 256], xs: &[i32; 256], ys: &[i32; 256])
    ensures { out.new ≡ laid_by wet (bytes (cancels touch_view (table_from states.now xs.now ys.now))) out.old }
{
    if wet {
        moves::write_cancels(out, states, xs, ys);
    }
}

// A frame that does not conform: a cancel for each active contact, and all go out of range. The set is of those, and of the frame's.
fn cancel<'a>(
    out: &mut [u8],
    wet: bool,
    rest: &'a [u8],
    n: usize,
    run: Run,
    states: &mut [u8; 256],
    xs: &mut [i32; 256],
    ys: &mut [i32; 256],
    held: &mut [u8; 256],
) -> (Run, &'a [u8])
    requires { HasRoom run }
    ensures { Cancels n rest.now wet run result.0 result.1.now (arrays_from states.old xs.old ys.old held.old) (arrays_from states.new xs.new ys.new held.new) out.old out.new }
{
    write_cancelled(out, wet, states, xs, ys);
    openings::mark_active(states, held);
    moves::rest_all(states, xs, ys);
    let next = Run {
        running: false,
        active: 0,
        cancelled: run.cancelled + 1,
        records: run.records + run.active as usize,
        ..run
    };
    let left = openings::list_contacts(rest, n, held);
    (next, left)
}

// Any other frame while ignoring: nothing happens, but to the set.
fn ignore<'a>(rest: &'a [u8], n: usize, run: Run, held: &mut [u8; 256]) -> (Run, &'a [u8])
    requires { frames_passed run < 255 }
    ensures { Ignores n rest.now run result.0 result.1.now held.old held.new }
{
    let next = Run {
        ignored: run.ignored + 1,
        ..run
    };
    (next, openings::list_contacts(rest, n, held))
}

// What becomes of a frame, by its contacts and by the run so far.
fn ruling_on(
    run: Run,
    rest: &[u8],
    n: u16,
    most: u16,
    states: &[u8; 256],
    xs: &[i32; 256],
    ys: &[i32; 256],
    held: &[u8; 256],
) -> Ruling
    ensures { result ≡ ruling_on most run (arrays_from states.now xs.now ys.now held.now) (contacts_of n rest.now) }
{
    let judged = openings::is_judged(run.running, rest, n, held);
    contacts::verdict_of(judged, rest, n, states, xs, ys, most, run.active)
}

// What becomes of a frame whose contacts are at the front of rest.
pub(crate) fn step<'a>(
    out: &mut [u8],
    wet: bool,
    rest: &'a [u8],
    head: Head,
    most: u16,
    run: Run,
    states: &mut [u8; 256],
    xs: &mut [i32; 256],
    ys: &mut [i32; 256],
    held: &mut [u8; 256],
) -> (Run, &'a [u8])
    requires { HasRoom run }
    ensures { Steps (ruling_on most run (arrays_from states.old xs.old ys.old held.old) (contacts_of head.count rest.now)) head rest.now wet run result.0 result.1.now (arrays_from states.old xs.old ys.old held.old) (arrays_from states.new xs.new ys.new held.new) out.old out.new }
{
    let n = head.count as usize;
    let ruling = ruling_on(run, rest, head.count, most, states, xs, ys, held);
    match ruling {
        Ruling::Injected(active) => {
            inject(out, wet, rest, head, active, run, states, xs, ys, held)
        }
        Ruling::Ignored => ignore(rest, n, run, held),
        Ruling::Cancelled => cancel(out, wet, rest, n, run, states, xs, ys, held),
    }
}
