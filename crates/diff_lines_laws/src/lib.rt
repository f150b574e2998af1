// Laws of two lists compared (paper 02, A13): specs/ has them. Equal lists, and only these, give an empty result; the first list with the
// differences in the buffer applied is the second; the differences are in order, each true, none missing, none twice.

#![tactic(auto)]
