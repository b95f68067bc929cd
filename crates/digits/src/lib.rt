// Base 256, most significant digit first: the definitions stand in specs/, their laws in proofs/.
#![tactic(auto)]
