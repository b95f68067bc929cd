// One writer for all five kinds.
ghost use Rattle.std.specs.Prelude.{◌≡◌, ◌+◌, ◌*◌, ◌/◌, ◌^◌, ◌<◌, ◌≤◌, ◌++◌, length, take, drop};
ghost use Rattle.digits.specs.Digits.{digits};
ghost use Rattle.slices.specs.Writing.{bytes, laid, Writes};
ghost use Rattle.integers.specs.Integer.{fewest, furthest, formed, written, draft};

use integers::Integer;
use paper::Refusal;
use slices::Written;

// The c lowest digits of m behind the first byte of out; what is above them is handed back.
fn fill(out: &mut [u8], m: u64, c: usize) -> u64
    requires { c < length out.old }
    ensures { (result ≡ m / 256 ^ c) × (out.new ≡ take 1 out.old ++ (digits c m ++ drop (c + 1) out.old)) }
{
    let mut v = m;
    for j in 0..c {
        out[c - j] = (v % 256) as u8;
        v = v / 256;
    }
    v
}

// Sign s and magnitude m with c further bytes, at the front of an output that has room for them; byte one has t values for the
// magnitude and q for the sign.
fn put(out: &mut [u8], t: u8, q: u8, c: usize, s: u8, m: u64)
    requires { (s < q) × (m < t * 256 ^ c) × ((c + 1) * (q * t) ≤ 256) × (c < length out.old) }
    ensures { out.new ≡ laid out.old (formed t q c s m) }
{
    let top = fill(out, m, c);
    out[0] = ((c as u8) * q + s) * t + (top as u8);
}

// Sign s and magnitude m, in the only form. Nothing is stored before the room is known, so that a refusal leaves the output as it was.
fn put_fewest(out: &mut [u8], t: u8, q: u8, s: u8, m: u64) -> Written
    requires { (s < q)
        × (m < t * 256 ^ fewest furthest t m)
        × ((fewest furthest t m + 1) * (q * t) ≤ 256) }
    ensures { Writes (bytes (written t q s m)) result out.old out.new }
{
    let c = integers::fewest_of(u64::from(t), m);
    if out.len() <= c {
        return Written::refused(Refusal::NoRoom);
    }
    put(out, t, q, c, s, m);
    Written::done(c + 1)
}

// A value in the only form of its kind, at the front of the output; the range is judged before the room.
pub fn write<T: Integer>(out: &mut [u8], value: T) -> Written
    ensures { Writes
        (draft T.COUNT_BITS T.SIGN_BITS (T.shape.sign value) (T.shape.size value))
        result
        out.old
        out.new }
{
    let (sign, size) = value.split();
    if T::GREATEST < size {
        return Written::refused(Refusal::BadRange);
    }
    put_fewest(out, T::tops(), T::signs(), sign, size)
}
