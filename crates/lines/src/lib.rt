// Lines of text on a lent page, so that a program writes many of them at once.
#![tactic(auto)]

ghost use Rattle.std.specs.Prelude.{◌≡◌, ◌<◌, [], ◌∷◌};
ghost use Rattle.lines.specs.Page.{Added, turned_to, decimal, hex_of, hexes, space, cut_word, front_text, written_text};
ghost use Rattle.io.specs.Digits.{hex_digit_ascii};

use slices::Written;

// Standard output, as the system numbers it.
pub const STANDARD_OUTPUT: i32 = 1;

// Adds text at a place of a page, and answers the place after it; where there is no room the page stays as it was.
pub fn add_text(page: &mut [u8], at: usize, text: &[u8]) -> usize
    ensures { Added (text.now ∷ []) at result page.old page.new }
{
    if page.len() < at {
        return at;
    }
    let written = slices::lay(&mut page[at..], text);
    at + written.bytes
}

// Adds one byte.
pub fn add_byte(page: &mut [u8], at: usize, byte: u8) -> usize
    ensures { Added ((byte ∷ []) ∷ []) at result page.old page.new }
{
    if at < page.len() {
        page[at] = byte;
        return at + 1;
    }
    at
}

// Adds a number in decimal.
pub fn add_number(page: &mut [u8], at: usize, n: u64) -> usize
    ensures { Added (decimal n ∷ []) at result page.old page.new }
{
    let mut text = [0u8; 20];
    let k = io::decimal(n, &mut text);
    add_text(page, at, &text[..k])
}

// Adds a space and a number.
pub fn add_field(page: &mut [u8], at: usize, n: u64) -> usize
    ensures { Added (space ∷ decimal n ∷ []) at result page.old page.new }
{
    let next = add_byte(page, at, b' ');
    add_number(page, next, n)
}

// Adds a space and a number of 32 bits, such as answers are made of.
pub fn add_count(page: &mut [u8], at: usize, count: u32) -> usize
    ensures { Added (space ∷ decimal count ∷ []) at result page.old page.new }
{
    add_field(page, at, count as u64)
}

// Adds a byte in hexadecimal, two digits.
fn add_hex(page: &mut [u8], at: usize, byte: u8) -> usize
    ensures { Added (hex_of byte ∷ []) at result page.old page.new }
{
    let text = [glyph(byte / 16), glyph(byte % 16)];
    add_text(page, at, &text)
}

// Adds bytes in hexadecimal.
fn add_hexes(page: &mut [u8], place: usize, bytes: &[u8]) -> usize
    ensures { Added (hexes bytes.now) place result page.old page.new }
{
    let mut at = place;
    for &byte in bytes {
        at = add_hex(page, at, byte);
    }
    at
}

// Adds a space and the first n bytes in hexadecimal; nothing where there are none, or fewer.
pub fn add_front(page: &mut [u8], at: usize, n: usize, bytes: &[u8]) -> usize
    ensures { Added (front_text n bytes.now) at result page.old page.new }
{
    if n == 0 {
        return at;
    }
    if bytes.len() < n {
        return at;
    }
    let digits = add_byte(page, at, b' ');
    add_hexes(page, digits, &bytes[..n])
}

// Adds what a writer answered, the refusal and how many bytes it wrote, and then these, which stand at the front of its output.
pub fn add_written(page: &mut [u8], at: usize, written: Written, output: &[u8]) -> usize
    ensures { Added (written_text written output.now) at result page.old page.new }
{
    let refused = add_field(page, at, written.refusal as u64);
    let counted = add_field(page, refused, written.bytes as u64);
    add_front(page, counted, written.bytes, output)
}

// The digit of a number below 16, in ASCII and lower case.
fn glyph(digit: u8) -> u8
    requires { digit < 16 }
    ensures { result ≡ hex_digit_ascii digit }
{
    if digit < 10 { 48 + digit } else { 87 + digit }
}

// Adds the line of an entry that is cut: its number and the word.
pub fn add_cut(page: &mut [u8], at: usize, number: u64) -> usize
    ensures { Added (decimal number ∷ cut_word ∷ []) at result page.old page.new }
{
    let next = add_number(page, at, number);
    add_text(page, next, b" cut\n")
}

// Writes a page out up to a place within it, and answers the place to go on from: its beginning.
pub fn write_out(page: &[u8], at: usize) -> usize
    ensures { result ≡ 0 }
{
    if at <= page.len() {
        io::write_all(STANDARD_OUTPUT, &page[..at]);
    }
    0
}

// Writes a page out where so many bytes more have no room on it, and answers the place to go on from.
pub fn turn_over(page: &[u8], at: usize, need: usize) -> usize
    ensures { result ≡ turned_to need at page.now }
{
    if page.len() < at {
        return 0;
    }
    if page.len() - at < need {
        return write_out(page, at);
    }
    at
}
