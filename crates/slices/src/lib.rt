// How every writer writes: at the front of the output that it is lent, its bytes and nothing past them.
#![tactic(auto)]

ghost use Rattle.std.specs.Prelude.{◌≡◌};
ghost use Rattle.paper.specs.Refusals.{none, number};
ghost use Rattle.slices.specs.Writing.{bytes, refuse, answered, Writes};

use paper::Refusal;

// What a writer answers: a refusal's number, 0 for none, and how many bytes it wrote.
#[repr(C)]
#[derive(Clone, Copy)]
pub struct Written {
    pub refusal: u8,
    pub bytes: usize,
}

impl Written {
    // A refusal: no byte is written.
    pub fn refused(refusal: Refusal) -> Written
        ensures { result ≡ answered (refuse (number refusal)) }
    {
        Written {
            refusal: refusal.number(),
            bytes: 0,
        }
    }

    // So many bytes, and no refusal.
    pub fn done(count: usize) -> Written
        ensures { result ≡ record { refusal = none; bytes = count } }
    {
        Written {
            refusal: 0,
            bytes: count,
        }
    }
}

// What is left of a slice that is read from the front, as a loop moves it on.
#[derive(Clone, Copy)]
pub struct Left<'a> {
    pub bytes: &'a [u8],
}

// Lays all of source over the front of out, where there is room.
pub fn lay(out: &mut [u8], source: &[u8]) -> Written
    ensures { Writes (bytes source.now) result out.old out.new }
{
    let n = source.len();
    if out.len() < n {
        return Written::refused(Refusal::NoRoom);
    }
    out[..n].copy_from_slice(source);
    Written::done(n)
}
