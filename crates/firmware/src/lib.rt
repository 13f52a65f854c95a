// The kernel for firmware: one state record, changed where it lies by functions that C can call.
#![tactic(auto)]

mod answers;
mod by_value;
mod in_place;

pub use answers::{cungkalisa_number, cungkalisa_run, cungkalisa_value};
pub use in_place::{cungkalisa_fresh, cungkalisa_is_sound, cungkalisa_step};
