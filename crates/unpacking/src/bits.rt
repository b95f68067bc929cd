// Fields of a record, read back.
ghost use Rattle.std.specs.Prelude.{◌≡◌, ◌+◌, ◌-◌, ◌/◌, ◌%◌, ◌^◌, ◌<◌, length};
ghost use Rattle.digits.specs.Digits.{joined};
ghost use Rattle.unpacking.specs.Within.{Within};

use house::low_bits;

// The field of width bits that stands at bits into a record.
pub(crate) fn get(whole: &[u8], at: usize, width: usize) -> u64
    requires { Within at width (length whole.now) }
    ensures { (result ≡ joined 0 whole.now / 2 ^ (168 - (at + width)) % 2 ^ width) × (result < 2 ^ width) }
{
    let end = (at + width + 7) / 8;
    let mut n: u64 = 0;
    for byte in &whole[at / 8..end] {
        n = n * 256 + *byte as u64;
    }
    low_bits(n >> (8 * end - (at + width)), width)
}
