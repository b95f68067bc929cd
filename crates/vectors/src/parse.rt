// Numbers of a vector: most significant byte first.
// A byte in 16 bits.
pub(crate) fn wide(byte: u8) -> u16 {
    byte as u16
}

// A byte as a count.
pub(crate) fn count(byte: u8) -> usize {
    byte as usize
}

pub(crate) fn half(high: u8, low: u8) -> u16 {
    (high as u16) * 256 + low as u16
}

pub(crate) fn word(a: u8, b: u8, c: u8, d: u8) -> u32 {
    (((a as u32) * 256 + b as u32) * 256 + c as u32) * 256 + d as u32
}

pub(crate) fn joined(high: u32, low: u32) -> u64 {
    (high as u64) * 4294967296 + low as u64
}

// A number of sign and magnitude; beyond the type's range, its least.
pub(crate) fn signed16(minus: u8, size: u16) -> i16 {
    if 32768 <= size {
        return -32768;
    }
    if minus == 0 {
        return size as i16;
    }
    -(size as i16)
}

pub(crate) fn signed32(minus: u8, size: u32) -> i32 {
    if 2147483648 <= size {
        return -2147483648;
    }
    if minus == 0 {
        return size as i32;
    }
    -(size as i32)
}
