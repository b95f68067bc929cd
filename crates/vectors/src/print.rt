// Words and numbers of a line, each with a space before it.
use integers::Integer;

// Standard output, as the system numbers it.
const STANDARD_OUTPUT: i32 = 1;

// A line's number, with no space before it.
pub(crate) fn begin(number: u64) {
    io::print_decimal(STANDARD_OUTPUT, number);
}

pub(crate) fn end() {
    io::write_all(STANDARD_OUTPUT, b"\n");
}

pub(crate) fn word(text: &[u8]) {
    io::write_all(STANDARD_OUTPUT, b" ");
    io::write_all(STANDARD_OUTPUT, text);
}

pub(crate) fn number(n: u64) {
    io::write_all(STANDARD_OUTPUT, b" ");
    io::print_decimal(STANDARD_OUTPUT, n);
}

// A number of sign and magnitude: 1 is minus.
pub(crate) fn whole(sign: u8, size: u64) {
    io::write_all(STANDARD_OUTPUT, b" ");
    if sign != 0 {
        io::write_all(STANDARD_OUTPUT, b"-");
    }
    io::print_decimal(STANDARD_OUTPUT, size);
}

// A number with its sign.
pub(crate) fn signed<T: Integer>(z: T) {
    let (sign, size) = z.split();
    whole(sign, size);
}

pub(crate) fn refused(number: u8) {
    word(b"refused");
    self::number(number as u64);
}

// Bytes in hexadecimal, or - for none.
pub(crate) fn hex(bytes: &[u8]) {
    io::write_all(STANDARD_OUTPUT, b" ");
    if bytes.is_empty() {
        io::write_all(STANDARD_OUTPUT, b"-");
    }
    for byte in bytes {
        io::print_hex(STANDARD_OUTPUT, *byte as u64, 2);
    }
}
