// The machine of document 01's contact states, over what it sees of a contact and over its rules: the definitions stand in specs/, their laws in
// proofs/.
#![tactic(auto)]
