//! What the contracts of the crates that work on slices don't show: worked examples, and that ample memory
//! meets no refusal.
#![tactic(auto)]

#[cfg(test)]
mod print;
#[cfg(test)]
mod rows;
#[cfg(test)]
mod states;
#[cfg(test)]
mod trace;
#[cfg(test)]
mod values;
