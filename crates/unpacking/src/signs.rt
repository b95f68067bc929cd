// Signed fields, read from two's complement.
ghost use Rattle.std.specs.Prelude.{◌≡◌, ◌+◌, ◌-◌, ◌/◌, ◌%◌, ◌^◌, ◌<◌, length};
ghost use Rattle.digits.specs.Digits.{joined};
ghost use Rattle.house.specs.Twos.{of_twos, Holds};
ghost use Rattle.unpacking.specs.Within.{Within};

use crate::bits::get;

fn pow2(k: usize) -> u64
    requires { k < 64 }
    ensures { result ≡ 2 ^ k }
{
    1 << k
}

// The number of a field of width bits.
fn of_twos(v: u64, width: usize) -> i32
    requires { (width < 33) × (v < 2 ^ width) }
    ensures { (result ≡ of_twos width v) × Holds width result }
{
    let p = pow2(width);
    if 2 * v < p {
        v as i32
    } else {
        let m = (p - 1 - v) as i32;
        -1 - m
    }
}

// Reads a signed field.
pub(crate) fn get_signed(whole: &[u8], at: usize, width: usize) -> i32
    requires width_bound { width < 33 }
    requires within { Within at width (length whole.now) }
    ensures { (result ≡ of_twos width (joined 0 whole.now / 2 ^ (168 - (at + width)) % 2 ^ width)) × Holds width result }
{
    let v = get(whole, at, width);
    of_twos(v, width)
}
