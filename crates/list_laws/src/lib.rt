// Laws only (specs/): over whatever pieces and buffers, the text of `list` is the header and a row for each answer that the capture's nibbles have.

#![tactic(auto)]
