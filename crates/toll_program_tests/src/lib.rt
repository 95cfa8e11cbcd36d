//! What the contracts of the programs don't show: scripts, commands and imports of the whole office with all that they
//! print, over lists and over tables; streams that fail; the texts of frames, byte for byte; and the outcomes of handing
//! something to a server.
#![tactic(auto)]

#[cfg(test)]
mod batches;
#[cfg(test)]
mod calling;
#[cfg(test)]
mod faults;
#[cfg(test)]
mod frames;
#[cfg(test)]
mod lines;
#[cfg(test)]
mod long;
#[cfg(test)]
mod prints;
#[cfg(test)]
mod programs;
#[cfg(test)]
mod tables;
#[cfg(test)]
mod words;
