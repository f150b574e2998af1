// The exported table of readers, tied to the table of readers that its bytes hold (paper 02, A12); all of it is in specs/. No code.

#![tactic(auto)]
