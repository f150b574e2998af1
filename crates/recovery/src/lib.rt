// Read-back and recovery (paper 01, demands 2 and 3), as laws: all of it is in specs/.

#![tactic(auto)]
