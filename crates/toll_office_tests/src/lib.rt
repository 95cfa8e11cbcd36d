//! What the contracts of an office in files don't show: clients over sockets, and descriptors.
#![tactic(auto)]

#[cfg(test)]
mod connections;
#[cfg(test)]
mod descriptors;
