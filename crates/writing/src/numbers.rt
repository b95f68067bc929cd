// An integer of a message, in its range and with room for it, so that nothing is refused: how many bytes were written is the answer.
ghost use Rattle.std.specs.Prelude.{length, ◌<◌, ◌≤◌};
ghost use Rattle.integers.specs.Integer.{limit, writing};
ghost use Rattle.message_writers.specs.Put.{Put};

use integers::Integer;

pub(crate) fn put<T: Integer>(out: &mut [u8], value: T) -> usize
    requires { (T.shape.size value < limit T.COUNT_BITS T.SIGN_BITS) × (length (writing T.COUNT_BITS T.SIGN_BITS (T.shape.sign value) (T.shape.size value)) ≤ length out.old) }
    ensures { Put (writing T.COUNT_BITS T.SIGN_BITS (T.shape.sign value) (T.shape.size value)) result out.old out.new }
{
    integer_writers::write(out, value).bytes
}
