// Document 01's bench program, on standard input.
#![tactic(auto)]

ghost use Rattle.std.specs.Prelude.{◌≤◌};

// Standard input, as the system numbers it.
const STANDARD_INPUT: i32 = 0;

// Prints the lines of the input: what is lent suffices for any.
fn print_input() -> u64
    ensures { 1 ≤ result }
{
    let mut space = [0u8; 131072];
    let mut answers = [0u32; 3072];
    let mut output = [0u8; 2 * receiver::OUTPUT_MOST];
    let mut page = [0u8; 65536];
    report::print_file(
        STANDARD_INPUT,
        &mut space,
        &mut answers,
        &mut output,
        &mut page,
    )
}

fn main() {
    print_input();
}
