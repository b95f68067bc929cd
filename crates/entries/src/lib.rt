// Document 01, "A bench file": entries of a 16-bit length, most significant byte first, then a message.
#![tactic(auto)]

mod numbers;

ghost use Rattle.std.specs.Prelude.{◌≡◌, ◌+◌, ◌*◌};
ghost use Rattle.entries.specs.Entries.{front_of};

pub use numbers::{join_four, join_two};

// The length that a byte and the next give.
fn length_of(high: u8, low: u8) -> usize
    ensures { result ≡ high * 256 + low }
{
    (high as usize) * 256 + low as usize
}

// How many bytes the message of the entry at the front has; none where the part ends before the entry does.
pub fn read_front(file: &[u8]) -> Option<usize>
    ensures { result ≡ front_of file.now }
{
    if file.len() < 2 {
        return None;
    }
    let n = length_of(file[0], file[1]);
    if file.len() - 2 < n {
        return None;
    }
    Some(n)
}
