// Laws only (specs/): a slipped clip costs one line, and one frame (02, A14).

#![tactic(auto)]
