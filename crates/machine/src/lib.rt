// What each step does to a record, as definitions, and the laws that on a sound record this is the rule. In code: the parts of a record that `settle` gives to a step.
#![tactic(auto)]

use record::TASKS;
use task_lists::TaskList;

// Every task's level, and the ready order that follows from the levels.
#[derive(Drop)]
pub struct Order {
    pub level: [u8; TASKS],
    pub ready: TaskList,
}

// Who runs, and the ready order behind it.
#[derive(Drop)]
pub struct Turn {
    pub ready: TaskList,
    pub running: u8,
}
