// No code: over any calls of the C functions on a queue and its batches, every change taken in is accounted for, exactly once.
#![tactic(auto)]
