// Laws only (specs/): demands 2 and 3 of paper 01, and demand 3 with any number of stretches, over what the writer leaves in its buffer and the
// reader's own calls, each as one theorem.

#![tactic(auto)]
