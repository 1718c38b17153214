// The state that each call gets and hands back, and the questions put to each command.
#![tactic(auto)]

pub mod cpu;
pub mod refusal;
pub mod state;
