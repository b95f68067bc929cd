// Record files as they were before document 02's #107: statements over the calls. There is no code.
#![tactic(auto)]
