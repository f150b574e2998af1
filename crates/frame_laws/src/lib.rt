// Laws only (specs/): the judge's own test holds of exactly the states that calls reach, a whole frame is Complete, and nothing else is;
// VV5300 frames as 000 draws them.

#![tactic(auto)]
