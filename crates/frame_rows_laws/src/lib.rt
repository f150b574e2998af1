// Laws only (specs/): whenever a gatherer says complete, the rows are exactly those of a whole frame's lines; they make a picture; a frame that
// comes whole is shown.

#![tactic(auto)]
