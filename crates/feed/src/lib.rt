// The entries of a bench file that is read, through a lent space: a file of any size in constant memory.
#![tactic(auto)]

ghost use Rattle.std.specs.Prelude.{◌≡◌, ◌+◌, ◌≤◌, length};
ghost use Rattle.entries.specs.Entries.{front_of};
ghost use Rattle.feed.specs.Within.{Inside, bytes_in, Moves, ReadsOn, Fills, front_next, HandsOut};

// The longest entry: two bytes of length, and the 65,535 that these can say. In less space it is never whole.
pub const ENTRY_MOST: usize = 65537;

// Standard input, as the system numbers it.
pub const STANDARD_INPUT: i32 = 0;

// How much space programs have: that, and nearly as much again to read ahead.
pub const SPACE: usize = 131072;

// The bytes of the space that were read and not yet handed out.
#[derive(Clone, Copy)]
pub struct Window {
    pub at: usize,
    pub end: usize,
}

// What comes next.
#[derive(Clone, Copy)]
pub enum Next {
    // An entry: its message begins there and has that many bytes; and what is left after it.
    Entry(usize, usize, Window),
    // The input ends inside an entry.
    Cut,
    // The input is at its end.
    End,
}

// Nothing read yet.
pub fn opened() -> Window
    ensures { result ≡ record { at = 0; end = 0 } }
{
    Window { at: 0, end: 0 }
}

// Moves what is left of the window to the front, and answers how much that is.
fn moved(space: &mut [u8], window: Window) -> usize
    requires { Inside (length space.old) window }
    ensures { Moves window result space.old space.new }
{
    let mut to: usize = 0;
    for from in window.at..window.end {
        space[to] = space[from];
        to += 1;
    }
    to
}

// Reads on behind the bytes that are kept, until the space is full or the input ends.
fn read_on(input: i32, space: &mut [u8], kept: usize) -> usize
    requires { kept ≤ length space.old }
    ensures { ReadsOn kept result space.old space.new }
{
    kept + io::read_full(input, &mut space[kept..])
}

// The window, read on for where no whole entry is at its front. Of a window that is not the space's nothing is kept.
pub fn fill(input: i32, space: &mut [u8], window: Window) -> Window
    ensures { Fills window result space.old space.new }
{
    let at = window.at;
    let end = window.end;
    if space.len() < end {
        return opened();
    }
    if end < at {
        return opened();
    }
    if entries::read_front(&space[at..end]).is_some() {
        return window;
    }
    let kept = moved(space, window);
    Window {
        at: 0,
        end: read_on(input, space, kept),
    }
}

// The entry at the front of a window, if it is whole.
fn entry_in(space: &[u8], window: Window) -> Next
    requires { Inside (length space.now) window }
    ensures { result ≡ front_next (front_of (bytes_in window space.now)) window }
{
    let at = window.at;
    let end = window.end;
    let Some(n) = entries::read_front(&space[at..end]) else {
        return Next::Cut;
    };
    let start = at + 2;
    let rest = Window { at: start + n, end };
    Next::Entry(start, n, rest)
}

// The next entry of standard input.
pub fn next_entry(space: &mut [u8], window: Window) -> Next
    ensures { HandsOut window result space.old space.new }
{
    let filled = fill(STANDARD_INPUT, space, window);
    if filled.end <= filled.at {
        return Next::End;
    }
    entry_in(space, filled)
}
