// The messages that a panel writes for entries that are commands, and nothing else: a bench file.
#![tactic(auto)]

ghost use Rattle.std.specs.Prelude.{◌≡◌, ◌≤◌, length};
ghost use Rattle.messages.specs.Header.{most_bytes};
ghost use Rattle.feed.specs.Within.{entry_most};
ghost use Rattle.lines.specs.Page.{Prints};
ghost use Rattle.sent.specs.Entry.{written_most, entry_of};

use feed::Next;

// The longest entry: two bytes of length, and the longest message.
const WRITTEN_MOST: usize = 2 + messages::MESSAGE_MOST;

// Adds a bench file's entry of the n bytes at the front of the output, 16 bits of length first, whole; none where nothing was written.
fn add_entry(page: &mut [u8], place: usize, output: &[u8], n: usize) -> usize
    requires { (n ≤ length output.now) × (n ≤ most_bytes) × (place ≤ length page.old) × (written_most ≤ length page.old) }
    ensures { Prints (entry_of n output.now) place result page.old page.new }
{
    if n == 0 {
        return place;
    }
    let at = lines::turn_over(page, place, WRITTEN_MOST);
    let high = lines::add_byte(page, at, (n / 256 % 256) as u8);
    let low = lines::add_byte(page, high, (n % 256) as u8);
    lines::add_text(page, low, &output[..n])
}

// The space holds the longest entry that is read, which has 65,535 bytes behind two of length, the page the longest that is written, and
// the output the longest message and no more.
// A proved loop has to end, and nothing says that an input does: it stops after more entries than any run has.
fn run(space: &mut [u8], page: &mut [u8], output: &mut [u8])
    requires { (entry_most ≤ length space.old) × (written_most ≤ length page.old) × (length output.old ≡ most_bytes) }
{
    let mut panel = panels::fresh();
    let mut window = feed::opened();
    let mut at: usize = 0;
    for _ in 0..u64::MAX {
        let next = feed::next_entry(space, window);
        let Next::Entry(from, n, rest) = next else {
            lines::write_out(page, at);
            return;
        };
        let to = from + n;
        let obeyed = commands::obey(panel, &space[from..to], output);
        panel = obeyed.panel;
        window = rest;
        at = add_entry(page, at, output, obeyed.written.bytes);
    }
}

fn main() {
    let mut space = [0u8; 131072];
    let mut page = [0u8; 65536];
    let mut output = [0u8; messages::MESSAGE_MOST];
    run(&mut space, &mut page, &mut output);
}
