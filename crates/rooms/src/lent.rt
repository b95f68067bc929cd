// The output that is lent: painted before a call, so that it is seen afterwards whether it was touched.
ghost use Rattle.std.specs.Prelude.{◌≤◌};

const PAINT: u8 = 0xEE;

pub(crate) fn paint(out: &mut [u8]) {
    out.fill(PAINT);
}

pub(crate) fn is_painted(out: &[u8]) -> bool {
    out.iter().all(|byte| *byte == PAINT)
}

// How many bytes so many records have, of an output that has so many.
pub(crate) fn bytes_of(records: usize, all: usize) -> usize
    ensures { result ≤ all }
{
    house::RECORD_BYTES * records.min(all / house::RECORD_BYTES)
}
