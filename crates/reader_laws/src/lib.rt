// Laws only (specs/): what holds of every state that calls reach (Passing, Passes), of every answer (Sound),
// of a body that is stored in (Bodies), and of runs nibble by nibble (ByRuns).

#![tactic(auto)]
