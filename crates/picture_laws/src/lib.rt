// Laws only (specs/): the first frame of a capture, as the writer writes it, is found; its picture holds exactly the bodies of its visible lines,
// and its list every line, in the order sent.

#![tactic(auto)]
