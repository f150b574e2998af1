// Laws only (specs/): the verdict on a capture of whole frames with a slipped clip is CHECK THE CLIP where another frame is whole (02, A14), and
// `frames` tells it.

#![tactic(auto)]
