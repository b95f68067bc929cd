// The combinators of which message formats are made: the definitions stand in specs/, their laws in proofs/.
#![tactic(auto)]
