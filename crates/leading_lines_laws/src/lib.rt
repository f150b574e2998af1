// Laws only (specs/): the lines before the first frame, followed line by line, are in order exactly where they lie at places one after another of one
// layout.

#![tactic(auto)]
