// A command by value: the thread that it names, the questions put to it, the state that it leaves, and its answer; a command of plain numbers; and the commands
// before the seal.
#![tactic(auto)]

pub mod answer;
pub mod call;
pub mod numbers;
pub mod prepare;
