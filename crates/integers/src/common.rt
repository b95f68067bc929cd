// The fewest further bytes, which the readers and the writers need.
ghost use Rattle.std.specs.Prelude.{◌≡◌};
ghost use Rattle.integers.specs.Integer.{fewest, furthest};

// The greatest count of further bytes of any integer.
const FURTHEST: usize = 7;

// How many further bytes n takes where byte one has tops values for its most significant bits.
pub fn fewest_of(tops: u64, n: u64) -> usize
    ensures { result ≡ fewest furthest tops n }
{
    let mut v = n;
    for c in 0..FURTHEST {
        if v < tops {
            return c;
        }
        v = v / 256;
    }
    FURTHEST
}
