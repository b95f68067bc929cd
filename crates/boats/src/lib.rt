// Which boat was meant: what a label chooses over any calls, and of what a receiver writes. No code.
#![tactic(auto)]
