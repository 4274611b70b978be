// Performs commands, and writes each answer as text.
#![tactic(auto)]

mod answer;
mod calls;
mod cell;
mod lent;
mod posting;
mod refusal;
mod report;
mod run;
mod session;

pub use run::run_script;
