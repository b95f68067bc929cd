// A frame's records: its head, then its contacts.
ghost use Rattle.std.specs.Prelude.{◌*◌, ◌≤◌, length};
ghost use Rattle.house.specs.Fields.{record_bytes};
ghost use Rattle.frame_records.specs.Frames.{WritesContacts, WritesFrame};

use house::Head;
use paper::Refusal;
use slices::Written;

// A record for each of n contacts, each where the one before it ended, up to the first that cannot be read. Answers how many bytes it wrote.
fn write_contacts(out: &mut [u8], rest: &[u8], n: usize) -> usize
    requires { record_bytes * n ≤ length out.old }
    ensures { WritesContacts n rest.now result out.old out.new }
{
    let mut pos: usize = 0;
    let mut left = rest;
    for _ in 0..n {
        let Ok((contact, behind)) = touch::read_contact(left, false) else {
            return pos;
        };
        packing::write_contact(&mut out[pos..], house::TOUCHED, contact);
        pos += house::RECORD_BYTES;
        left = behind;
    }
    pos
}

// Writes a frame of this head whose contacts are at the front of rest, where there is room for as many records as the head says.
pub fn write_frame(out: &mut [u8], head: Head, rest: &[u8]) -> Written
    ensures { WritesFrame head rest.now result out.old out.new }
{
    let count = head.count as usize;
    let all = house::RECORD_BYTES * (count + 1);
    if out.len() < all {
        return Written::refused(Refusal::NoRoom);
    }
    packing::write_head(out, head);
    let more = write_contacts(&mut out[house::RECORD_BYTES..], rest, count);
    Written::done(house::RECORD_BYTES + more)
}
