// One reader for all five kinds.
ghost use Rattle.std.specs.Prelude.{◌≡◌};
ghost use Rattle.integers.specs.Integer.{reading_by};
ghost use Rattle.integers.specs.Answer.{reading_of};

use crate::found::{decode, is_only_form};
use crate::kinds::Integer;
use paper::Refusal;

// The integer at the front, in its only form or in any: its value and how many bytes it takes, or the refusal.
pub fn read<T: Integer>(rest: &[u8], strictly: bool) -> Result<(T, usize), Refusal>
    ensures { reading_of T.shape result ≡ reading_by strictly T.COUNT_BITS T.SIGN_BITS rest.now }
{
    let tops = T::tops();
    let (sign, size, n) = decode(rest, tops, T::signs())?;
    if strictly && !is_only_form(tops, sign, size, n) {
        return Err(Refusal::NotShortest);
    }
    Ok((T::join(sign, size), n))
}
