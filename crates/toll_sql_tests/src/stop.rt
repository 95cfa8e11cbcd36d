//! Tests of stops: an office over two disks in memory, each of which stops at each of its calls in turn,
//! and what is found when it is opened again; and a keep that refuses each of its calls in turn.

mod disks;
mod imports;
mod refused;
mod runs;
mod stops;
mod stories;
