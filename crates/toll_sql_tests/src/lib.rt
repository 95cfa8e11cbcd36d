//! What the contracts of keeps don't show: that ample memory meets no refusal, that rows which were put are read
//! back, and what is there after a stop at each call of a disk.
#![tactic(auto)]

#[cfg(test)]
mod keep;
#[cfg(test)]
mod stop;
