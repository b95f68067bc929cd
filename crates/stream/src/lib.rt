// Demand 3 over one stream of contacts: the definitions stand in specs/, the laws and the sentences in proofs/.
#![tactic(auto)]
