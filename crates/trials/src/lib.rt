// Examples of rows, opening, selections, slicing, collapsing, merging, filling and reading, each run by the gate.
#![tactic(auto)]

#[cfg(test)]
mod filling;
#[cfg(test)]
mod opening;
#[cfg(test)]
mod rows;
#[cfg(test)]
mod slicing;
