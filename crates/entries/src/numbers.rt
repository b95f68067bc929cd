// Numbers inside an entry, most significant byte first.
ghost use Rattle.std.specs.Prelude.{◌≡◌, [], ◌∷◌};
ghost use Rattle.digits.specs.Digits.{joined};

// The number of two bytes.
pub fn join_two(a: u8, b: u8) -> u16
    ensures { result ≡ joined 0 (a ∷ b ∷ []) }
{
    (a as u16) * 256 + b as u16
}

// The number of four bytes.
pub fn join_four(a: u8, b: u8, c: u8, d: u8) -> u32
    ensures { result ≡ joined 0 (a ∷ b ∷ c ∷ d ∷ []) }
{
    (((a as u32) * 256 + b as u32) * 256 + c as u32) * 256 + d as u32
}
