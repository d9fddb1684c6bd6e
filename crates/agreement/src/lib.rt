// No code: the definitions of the code's crates agree with the paper's conditions.
#![tactic(auto)]
