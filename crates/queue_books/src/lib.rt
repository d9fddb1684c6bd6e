// No code: what the promises of the queue's crates come to.
#![tactic(auto)]
