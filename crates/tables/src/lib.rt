// The rule of a constant table, by one computed test over the whole of it: the laws stand in proofs/.
#![tactic(auto)]
