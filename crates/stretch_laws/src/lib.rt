// Laws only (specs/): any number of stretches of a clean stream replaced by any nibbles; every line that lies whole in what stayed comes out as sent.

#![tactic(auto)]
