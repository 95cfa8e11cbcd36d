//! Tests of keeps: that ample memory meets no refusal, that rows which were put are read back, and that stories of
//! the office have the same replies over tables as over lists.

mod checks;
mod first_version;
mod holders;
mod limits;
mod many;
mod offices;
mod rows;
mod segments;
mod stories;
mod tables;
mod tests;
