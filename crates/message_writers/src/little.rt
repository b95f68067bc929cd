// Numbers of one, two and four bytes, little-endian, at the front of an output that has room for them.
ghost use Rattle.std.specs.Prelude.{◌≤◌, length};
ghost use Rattle.formats.specs.Format.{byte, write_little};
ghost use Rattle.message_writers.specs.Put.{Put};

// The one byte of v, at the front of out.
pub(crate) fn put_one(out: &mut [u8], v: u8) -> usize
    requires { 1 ≤ length out.old }
    ensures { Put (byte.write v) result out.old out.new }
{
    out[0] = v;
    1
}

// The two bytes of v.
#[tactic(auto, unfolding(formats::specs::Format::write_little))]
pub(crate) fn put_two(out: &mut [u8], v: u16) -> usize
    requires { 2 ≤ length out.old }
    ensures { Put (write_little 2 v) result out.old out.new }
{
    out[..2].copy_from_slice(&v.to_le_bytes());
    2
}

// The four bytes of v.
#[tactic(auto, unfolding(formats::specs::Format::write_little))]
pub(crate) fn put_four(out: &mut [u8], v: u32) -> usize
    requires { 4 ≤ length out.old }
    ensures { Put (write_little 4 v) result out.old out.new }
{
    out[..4].copy_from_slice(&v.to_le_bytes());
    4
}
