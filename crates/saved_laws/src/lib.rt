// Laws of saved settings (02, A11): no code.

#![tactic(auto)]
