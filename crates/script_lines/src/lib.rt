// One line of a script: its step made, and its log line written.
#![tactic(auto)]

pub mod run;
