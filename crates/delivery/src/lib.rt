// What a panel sends, delivered to a receiver: a statement over the calls of both ends. There is no code.
#![tactic(auto)]
