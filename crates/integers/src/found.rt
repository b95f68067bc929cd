// What the one reader of all five kinds is made of: an integer at any length, and whether it stood in its only form.
ghost use Rattle.std.specs.Prelude.{◌≡◌, ◌+◌, ◌*◌, ◌<◌, ◌≤◌, length, cond};
ghost use Rattle.paper.specs.Refusals.{not_shortest};
ghost use Rattle.digits.specs.Digits.{joined};
ghost use Rattle.integers.specs.Integer.{value, refused, decoded, only};
ghost use Rattle.integers.specs.Found.{found_of};

use crate::common::fewest_of;
use paper::Refusal;

// The number whose digits are those of head and then the bytes.
fn join(bytes: &[u8], head: u64) -> u64
    requires { (head < 128) × (length bytes.now ≤ 7) }
    ensures { result ≡ joined head bytes.now }
{
    let mut v = head;
    for b in bytes {
        v = v * 256 + u64::from(*b);
    }
    v
}

// An integer at any length, where byte one has tops values for the magnitude and signs for the sign.
pub(crate) fn decode(rest: &[u8], tops: u8, signs: u8) -> Result<(u8, u64, usize), Refusal>
    requires { (0 < tops) × (tops ≤ 128) × (0 < signs) × (32 ≤ tops * signs) }
    ensures { found_of result ≡ decoded tops signs rest.now }
{
    let Some(&b) = rest.first() else {
        return Err(Refusal::Truncated);
    };
    let c = usize::from(b / tops / signs);
    if rest.len() <= c {
        return Err(Refusal::Truncated);
    }
    let size = join(&rest[1..c + 1], u64::from(b % tops));
    Ok((b / tops % signs, size, c + 1))
}

// Whether what was decoded stood in its only form: with the fewest bytes, and not as minus zero.
pub(crate) fn is_only_form(tops: u8, s: u8, m: u64, n: usize) -> bool
    ensures { only tops (value s m n) ≡ cond result (value s m n) (refused not_shortest) }
{
    (n == fewest_of(u64::from(tops), m) + 1) & (u64::from(s) <= m)
}
