// What a call that fills a lent buffer from its front answers: the length used, or a refusal. specs/ says what either means for the buffer.

#![tactic(auto)]

use refusal::Refusal;

pub type Filled = Result<usize, Refusal>;
