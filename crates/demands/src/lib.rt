// No code: what the promises of the public operations come to, as the three demands say it.
#![tactic(auto)]
