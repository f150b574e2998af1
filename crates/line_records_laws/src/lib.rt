// Laws of a list of lines as it is lent (02, A13): no code.

#![tactic(auto)]
