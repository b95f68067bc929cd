// The five kinds of integers, each with the Rust type of its values.
ghost use Rattle.std.specs.Prelude.{ℕ, ◌≡◌, ◌+◌, ◌<◌, ◌≤◌, ◌^◌, ◌%◌, nat_abs};
ghost use Rattle.std.proofs.Common.{rules};
ghost use Rattle.integers.specs.Integer.{limit, tops, signs, sign_over};
ghost use Rattle.integers.specs.Shape.{Shape, unsigned, signed, minus, signed-again};

// A kind of integers: how byte one is shared out, and what a value of it is.
pub trait Integer: Copy {
    // How many bits of byte one count the further bytes.
    ghost COUNT_BITS: { ℕ };

    const COUNT_BITS: u8;

    // How many are a sign's: 1 or 0.
    ghost SIGN_BITS: { ℕ };

    const SIGN_BITS: u8;

    // The greatest magnitude.
    ghost GREATEST: { ℕ };

    const GREATEST: u64;

    // Its values as signs, 1 for minus, and magnitudes.
    ghost shape: { Shape Self };

    // The value of a sign and a magnitude, of each what its bits hold; minus nothing is nothing.
    fn join(sign: u8, size: u64) -> Self
        ensures { (shape.sign result ≡ sign_over (sign % signs SIGN_BITS) (shape.size result))
            × (shape.size result ≡ size % limit COUNT_BITS SIGN_BITS) };

    // The sign and the magnitude of a value.
    fn split(self) -> (u8, u64)
        ensures { result ≡ (shape.sign self, shape.size self) };

    // A value is its sign and its magnitude; the sign fits its bits; byte one has room for both; the greatest magnitude is the last in range.
    ghost again: { (x : Self) → shape.made (shape.sign x) (shape.size x) ≡ x };

    ghost sign_fits: { (x : Self) → shape.sign x < signs SIGN_BITS };

    ghost shared: { (0 < COUNT_BITS) × (COUNT_BITS ≤ 3) × (SIGN_BITS ≤ 1) };

    ghost ends: { GREATEST + 1 ≡ limit COUNT_BITS SIGN_BITS };

    // How many values the magnitude's bits of byte one have. A shift, so that a division by it is one too.
    final fn tops() -> u8
        ensures { result ≡ tops COUNT_BITS SIGN_BITS }
    {
        1 << (8 - (Self::COUNT_BITS + Self::SIGN_BITS))
    }

    // How many values the sign's have.
    final fn signs() -> u8
        ensures { result ≡ signs SIGN_BITS }
    {
        1 << Self::SIGN_BITS
    }
}

// U2.
impl Integer for u16 {
    ghost COUNT_BITS = { 1 };

    const COUNT_BITS: u8 = 1;

    ghost SIGN_BITS = { 0 };

    const SIGN_BITS: u8 = 0;

    ghost GREATEST = { 0x7FFF };

    const GREATEST: u64 = 0x7FFF;

    ghost shape = { unsigned };

    ghost again = { Prim.search rules };

    ghost sign_fits = { Prim.search rules };

    ghost shared = { Prim.search rules };

    ghost ends = { Prim.search rules };

    #[tactic(auto, using(crate::proofs::Signed::unsigned))]
    fn join(_sign: u8, size: u64) -> u16 {
        (size % (Self::GREATEST + 1)) as u16
    }

    fn split(self) -> (u8, u64) {
        (0, u64::from(self))
    }
}

// S2.
impl Integer for i16 {
    ghost COUNT_BITS = { 1 };

    const COUNT_BITS: u8 = 1;

    ghost SIGN_BITS = { 1 };

    const SIGN_BITS: u8 = 1;

    ghost GREATEST = { 0x3FFF };

    const GREATEST: u64 = 0x3FFF;

    ghost shape = { signed };

    ghost again = { signed-again };

    ghost sign_fits = { Prim.search rules };

    ghost shared = { Prim.search rules };

    ghost ends = { Prim.search rules };

    fn join(sign: u8, size: u64) -> i16 {
        signed(sign, size % (Self::GREATEST + 1)) as i16
    }

    fn split(self) -> (u8, u64) {
        split(i32::from(self))
    }
}

// U4.
impl Integer for u32 {
    ghost COUNT_BITS = { 2 };

    const COUNT_BITS: u8 = 2;

    ghost SIGN_BITS = { 0 };

    const SIGN_BITS: u8 = 0;

    ghost GREATEST = { 0x3FFFFFFF };

    const GREATEST: u64 = 0x3FFF_FFFF;

    ghost shape = { unsigned };

    ghost again = { Prim.search rules };

    ghost sign_fits = { Prim.search rules };

    ghost shared = { Prim.search rules };

    ghost ends = { Prim.search rules };

    #[tactic(auto, using(crate::proofs::Signed::unsigned))]
    fn join(_sign: u8, size: u64) -> u32 {
        (size % (Self::GREATEST + 1)) as u32
    }

    fn split(self) -> (u8, u64) {
        (0, u64::from(self))
    }
}

// S4.
impl Integer for i32 {
    ghost COUNT_BITS = { 2 };

    const COUNT_BITS: u8 = 2;

    ghost SIGN_BITS = { 1 };

    const SIGN_BITS: u8 = 1;

    ghost GREATEST = { 0x1FFFFFFF };

    const GREATEST: u64 = 0x1FFF_FFFF;

    ghost shape = { signed };

    ghost again = { signed-again };

    ghost sign_fits = { Prim.search rules };

    ghost shared = { Prim.search rules };

    ghost ends = { Prim.search rules };

    fn join(sign: u8, size: u64) -> i32 {
        signed(sign, size % (Self::GREATEST + 1))
    }

    fn split(self) -> (u8, u64) {
        split(self)
    }
}

// U8.
impl Integer for u64 {
    ghost COUNT_BITS = { 3 };

    const COUNT_BITS: u8 = 3;

    ghost SIGN_BITS = { 0 };

    const SIGN_BITS: u8 = 0;

    ghost GREATEST = { 0x1FFFFFFFFFFFFFFF };

    const GREATEST: u64 = 0x1FFF_FFFF_FFFF_FFFF;

    ghost shape = { unsigned };

    ghost again = { Prim.search rules };

    ghost sign_fits = { Prim.search rules };

    ghost shared = { Prim.search rules };

    ghost ends = { Prim.search rules };

    #[tactic(auto, using(crate::proofs::Signed::unsigned))]
    fn join(_sign: u8, size: u64) -> u64 {
        size % (Self::GREATEST + 1)
    }

    fn split(self) -> (u8, u64) {
        (0, self)
    }
}

// The integer whose sign is the lowest bit of s, 1 for minus, and whose magnitude is m: nothing less 0 is 0.
fn signed(s: u8, m: u64) -> i32
    requires { m < 2 ^ 31 }
    ensures { (minus result ≡ sign_over (s % 2) m) × (nat_abs result ≡ m) }
{
    if s % 2 == 0 {
        return m as i32;
    }
    0 - m as i32
}

// The sign and the magnitude of a signed value.
fn split(z: i32) -> (u8, u64)
    ensures { result ≡ (minus z, nat_abs z) }
{
    (u8::from(z < 0), u64::from(z.unsigned_abs()))
}
