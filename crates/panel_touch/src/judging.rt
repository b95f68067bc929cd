// The frames of records, judged one after the other, each from what the one before leaves.
ghost use Rattle.contacts.specs.Touch.{touch_rules};
ghost use Rattle.contacts.specs.Ruling.{table_from};
ghost use Rattle.panel_touch.specs.Judging.{BeginsFrame, AreFrames, Steps, RunsThrough};

// The frame at the front, judged, and stored where it conforms: how many contacts are active then, and what is behind it.
fn step<'a>(
    frame: &'a [u8],
    most: u16,
    active: u16,
    states: &mut [u8; 256],
    xs: &mut [i32; 256],
    ys: &mut [i32; 256],
) -> Option<(u16, &'a [u8])>
    requires { BeginsFrame frame.now }
    ensures { Steps (touch_rules most) active frame.now result (table_from states.old xs.old ys.old) (table_from states.new xs.new ys.new) }
{
    let count = recordings::contacts_after(unpacking::read_record(frame));
    let rest = &frame[house::RECORD_BYTES..];
    let after = contacts::judge(rest, count, true, states, xs, ys, most, active)?;
    let behind = moves::apply(rest, count as usize, true, states, xs, ys);
    Some((after, behind))
}

// Whether every frame conforms; the contacts are left as the last one leaves them.
pub(crate) fn run_through(
    records: &[u8],
    most: u16,
    states: &mut [u8; 256],
    xs: &mut [i32; 256],
    ys: &mut [i32; 256],
) -> bool
    requires { AreFrames records.now }
    ensures { RunsThrough (touch_rules most) records.now result (table_from states.old xs.old ys.old) (table_from states.new xs.new ys.new) }
{
    let mut active = contacts::count_active(states);
    let mut left = records;
    while !left.is_empty() {
        let Some((after, behind)) = step(left, most, active, states, xs, ys) else {
            return false;
        };
        active = after;
        left = behind;
    }
    true
}
