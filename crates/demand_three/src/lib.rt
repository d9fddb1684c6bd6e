// No code: the third demand in the words of what C lends and is answered.
#![tactic(auto)]
