//! What the contracts of `toll_wire` do not show: worked requests and their replies, byte for byte, and
//! streams of std that fail.

mod answers;
mod groups;
mod lines;
mod orders;
mod requests;
mod routes;
mod runs;
mod streams;
