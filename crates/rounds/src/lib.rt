// Rounds of a run over a bench file that is read: the window is filled, and the whole entries in it are fed to the receiver.
#![tactic(auto)]

ghost use Rattle.std.specs.Prelude.{◌≡◌};
ghost use Rattle.rounds.specs.Rounds.{begun, GoesOn};

use feed::Window;
use receiver::{OUTPUT_MOST, Receiver};

// Where a run stands: the receiver, what is left of the input, and how many entries and records the last round had.
#[derive(Clone, Copy)]
pub struct Round {
    pub receiver: Receiver,
    pub window: Window,
    pub entries: usize,
    pub records: usize,
}

// A fresh receiver, and nothing read.
pub fn begin() -> Round
    ensures { result ≡ begun }
{
    Round {
        receiver: receiver::fresh(),
        window: feed::opened(),
        entries: 0,
        records: 0,
    }
}

// The next round, whose answers and records are put at the front of the lists. No entry where none is left, or none that is whole.
pub fn go_on(
    input: i32,
    space: &mut [u8],
    round: Round,
    answers: &mut [u32],
    output: &mut [u8],
) -> Round
    ensures { GoesOn round result space.old space.new answers.old answers.new output.old output.new }
{
    let filled = feed::fill(input, space, round.window);
    let at = filled.at;
    let end = filled.end;
    // "lending 48 KiB of output for each entry": no entry is fed with less
    let fed = intake::take_entries(
        round.receiver,
        &space[at..end],
        OUTPUT_MOST,
        answers,
        output,
    );
    Round {
        receiver: fed.receiver,
        window: Window {
            at: at + fed.used,
            end,
        },
        entries: fed.entries,
        records: fed.records,
    }
}
