// The strict reading of each entry of a bench file, and behind an accepted one ` same` where writing it back gives the entry's bytes, as it
// always does, or ` differs`.
#![tactic(auto)]

ghost use Rattle.std.specs.Prelude.{◌≡◌, true};

// What is lent is enough for the longest entry, the longest line and the records of any message: the run is not refused.
fn run() -> bool
    ensures { result ≡ true }
{
    let mut space = [0u8; 131072];
    let mut page = [0u8; 65536];
    let mut output = [0u8; receiver::OUTPUT_MOST];
    readings::run(&mut space, &mut page, &mut output, true)
}

fn main() {
    run();
}
