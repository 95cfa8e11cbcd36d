//! What the contracts of what a server serves don't show: the replies to clients over a keep, and over an office that
//! stays open in a file; which lock is taken; and the last commit in a log.
#![tactic(auto)]

#[cfg(test)]
mod locks;
#[cfg(test)]
mod log_ends;
#[cfg(test)]
mod served;
#[cfg(test)]
mod words;
