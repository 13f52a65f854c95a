// Scripts whose bytes arrive in any pieces.
#![tactic(auto)]

pub mod session;
