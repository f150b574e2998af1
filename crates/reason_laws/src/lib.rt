// Laws only (specs/): a reason's number is the reader's own, over the reader's own calls (ReaderLaws), and a reason is true of the input
// (TrueLaws).

#![tactic(auto)]
