// Laws only (specs/): exactly when each verdict on a capture comes; that a clean capture with a whole frame in it is good, and `frames` tells it;
// and that the lines of a good capture lie frame by frame.

#![tactic(auto)]
