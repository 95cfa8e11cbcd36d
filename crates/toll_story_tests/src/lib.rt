//! What the contracts of decisions, replies and words don't show: what is replied along stories of the office,
//! over lists and over tables, line by line; that ample memory meets no refusal; and calls that nothing else names.
#![tactic(auto)]

#[cfg(test)]
mod desk;
#[cfg(test)]
mod plant;
#[cfg(test)]
mod stories;
#[cfg(test)]
mod surface;
#[cfg(test)]
mod wire;
