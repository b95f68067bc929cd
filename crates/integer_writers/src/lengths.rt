// How many bytes each integer is written with.
ghost use Rattle.std.specs.Prelude.{◌≡◌, length};
ghost use Rattle.integers.specs.Integer.{writing};

use integers::Integer;

// Byte one and the further bytes of the magnitude: a sign takes no byte of its own.
pub fn bytes<T: Integer>(value: T) -> usize
    ensures { result ≡ length (writing T.COUNT_BITS T.SIGN_BITS (T.shape.sign value) (T.shape.size value)) }
{
    let (_, size) = value.split();
    integers::fewest_of(u64::from(T::tops()), size) + 1
}
