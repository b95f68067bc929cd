// The three demands, each as one statement over the public calls: what they say stands in specs/, and proofs/Demands.antt names them.
#![tactic(auto)]
