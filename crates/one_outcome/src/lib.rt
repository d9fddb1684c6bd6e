// No code: two outcomes that meet a C function's promise for the same input are one.
#![tactic(auto)]
