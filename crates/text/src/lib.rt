// Parts, fields and lines of lent bytes, and bytes put into lent memory.
#![tactic(auto)]

pub mod cut;
pub mod fields;
pub mod lines;
pub mod place;
