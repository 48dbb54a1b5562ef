// A committed record stands: the theorem and what follows from it. There is no code here.
#![tactic(auto)]
