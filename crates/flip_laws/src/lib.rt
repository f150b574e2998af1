// Laws only (specs/): what lines as written are answered where bits of their codes were flipped on the way (paper 01, demand 2; 02, A8).

#![tactic(auto)]
