// Laws only (specs/): the lines of two complete frames are lists that can be compared; no refusal comes but for room.

#![tactic(auto)]
