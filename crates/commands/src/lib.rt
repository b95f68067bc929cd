// What the programs over a panel share: an entry of their input is a command, and the command carried out.
#![tactic(auto)]

mod carrying;
mod parts;

ghost use Rattle.commands.specs.Commands.{command_of, Obeys};

use carrying::{arrive, declare, dismiss, pass_over, touch};
use panels::Panel;
use slices::Written;

// An entry's first byte, by which the commands are told apart.
const ARRIVAL: u8 = 1;

const READY: u8 = 2;

const TOUCH: u8 = 3;

const DISMISSAL: u8 = 6;

// The panel after an entry, whether the entry was a command, and what was answered. A message that arrived writes nothing.
#[derive(Clone, Copy)]
pub struct Obeyed {
    pub panel: Panel,
    pub known: bool,
    pub written: Written,
}

// Carries out the command that an entry is. What is written stands at the front of out.
pub fn obey(panel: Panel, entry: &[u8], out: &mut [u8]) -> Obeyed
    ensures { Obeys panel (command_of entry.now) result out.old out.new }
{
    if entry.is_empty() {
        return pass_over(panel);
    }
    match entry[0] {
        ARRIVAL => arrive(panel, &entry[1..]),
        READY => declare(panel, entry, out),
        TOUCH => touch(panel, entry, out),
        DISMISSAL => dismiss(panel, entry, out),
        _ => pass_over(panel),
    }
}
