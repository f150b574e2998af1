// Laws only: the marks that are found are the capture's own.

#![tactic(auto)]
