// The reader answers as the meaning does, a run as its feeds, and demand 3 of both: laws, all of them in specs/.

#![tactic(auto)]
