// What the steps share: answers with the record, and refusals that several steps give.
#![tactic(auto)]

pub mod answers;
pub mod refusals;
