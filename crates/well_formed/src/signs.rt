// Signed numbers: the sign and the magnitude.
ghost use Rattle.std.specs.Prelude.{◌≡◌};
ghost use Rattle.std.specs.Int.Signed.{mag};
ghost use Rattle.well_formed.specs.WellFormed.{above, zero?};

// n both of n and of -(n + 1): unlike an absolute value it fits for every number.
fn magnitude(x: i32) -> u32
    ensures { result ≡ mag x }
{
    if x < 0 { (-1 - x) as u32 } else { x as u32 }
}

// Whether x is no less than -n.
pub(crate) fn is_above(n: u32, x: i32) -> bool
    ensures { result ≡ above n x }
{
    if x < 0 { magnitude(x) < n } else { true }
}

pub(crate) fn is_zero(x: i32) -> bool
    ensures { result ≡ zero? x }
{
    if x < 0 { false } else { magnitude(x) == 0 }
}
