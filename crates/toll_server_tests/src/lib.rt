//! What the contracts of a server don't show: clients in memory, in all orders in which their bytes may come,
//! and a network with a known tally.
#![tactic(auto)]

#[cfg(test)]
mod connections;
#[cfg(test)]
mod known;
