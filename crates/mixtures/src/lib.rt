// Batches and single calls of one receiver, in any order: statements over the calls. There is no code.
#![tactic(auto)]
