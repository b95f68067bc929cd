// A run over the entries of standard input that prints a line for each: what the programs that do so share.
#![tactic(auto)]

ghost use Rattle.std.specs.Prelude.{◌≡◌};
ghost use Rattle.turns.specs.Turns.{begun, following, Turns, EndsLine};

use feed::{Next, Window};

// Where a run stands: what is left of the input, where the page goes on, and the number of the entry.
#[derive(Clone, Copy)]
pub struct Stand {
    pub window: Window,
    pub at: usize,
    pub number: u64,
}

// What comes next.
#[derive(Clone, Copy)]
pub enum Turn {
    // An entry, whose line is begun: where its bytes are, from and to, and where the run stands.
    Entry(usize, usize, Stand),
    // The input is at its end, and all lines are printed.
    Over,
}

pub fn begin() -> Stand
    ensures { result ≡ begun }
{
    Stand {
        window: feed::opened(),
        at: 0,
        number: 1,
    }
}

// The number after a number; no run comes to the last.
fn after(number: u64) -> u64
    ensures { result ≡ following number }
{
    if number < 0xFFFF_FFFF_FFFF_FFFF {
        return number + 1;
    }
    number
}

// The next entry, with its number on the page; at the end of the input all is printed, with a last line where an entry is cut. Lines have
// at most so many bytes: the page is printed first where these have no room.
pub fn next_turn(space: &mut [u8], page: &mut [u8], stand: Stand, most: usize) -> Turn
    ensures { Turns stand most space.old space.new page.old page.new result }
{
    let window = stand.window;
    let next = feed::next_entry(space, window);
    let place = lines::turn_over(page, stand.at, most);
    match next {
        Next::Entry(from, n, rest) => {
            let line = Stand {
                window: rest,
                at: lines::add_number(page, place, stand.number),
                number: stand.number,
            };
            Turn::Entry(from, from + n, line)
        }
        Next::Cut => {
            let end = lines::add_cut(page, place, stand.number);
            lines::write_out(page, end);
            Turn::Over
        }
        Next::End => {
            lines::write_out(page, place);
            Turn::Over
        }
    }
}

// Ends the entry's line, which was written up to a place.
pub fn end_line(page: &mut [u8], stand: Stand, place: usize) -> Stand
    ensures { EndsLine stand place page.old page.new result }
{
    Stand {
        at: lines::add_byte(page, place, b'\n'),
        number: after(stand.number),
        ..stand
    }
}
