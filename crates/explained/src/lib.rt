// Laws only (specs/): every state that passes the reader's own test answers all later calls as some nibbles fed to a fresh reader would make it
// (Explained).

#![tactic(auto)]
