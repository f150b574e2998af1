// Bits of a byte, and laws that hold at every number below a bound because a computed test does: all of it is in specs/.

#![tactic(auto)]
