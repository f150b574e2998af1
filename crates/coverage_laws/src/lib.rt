// Laws only (specs/): the table of what came tells just which lines a capture's answers handed out; a complete frame covers its layout.

#![tactic(auto)]
