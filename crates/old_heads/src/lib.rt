// Heads as they were before document 02's #107, and what is promised of them. There is no code.
#![tactic(auto)]
