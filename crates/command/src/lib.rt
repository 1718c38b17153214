// One command over lent memory: its bytes read, the questions put, what it does, and the answer.
#![tactic(auto)]

pub mod obey;
