// Signed fields, written in two's complement.
ghost use Rattle.std.specs.Prelude.{◌≡◌, ◌<◌, [], ◌∷◌, length};
ghost use Rattle.house.specs.Twos.{twos_of};
ghost use Rattle.house.specs.Layout.{signed};
ghost use Rattle.packing.specs.Filling.{Puts, Space};

use crate::bits::put;
use house::low_bits;

// A whole turn of 32 bits: a multiple of every 2^width up to there, so that x + TURN is x modulo 2^width, and never below 0.
const TURN: i64 = 0x100000000;

// x modulo 2^width.
fn twos(x: i32, width: usize) -> u64
    requires { width < 33 }
    ensures { result ≡ twos_of width x }
{
    let wide = (x as i64 + TURN) as u64;
    low_bits(wide, width)
}

// Writes a signed field.
pub(crate) fn put_signed(out: &mut [u8], at: usize, width: usize, x: i32)
    requires width_bound { width < 33 }
    requires space { Space at width (length out.old) }
    ensures { Puts (signed width x ∷ []) at out.old out.new }
{
    let v = twos(x, width);
    put(out, at, width, v);
}
