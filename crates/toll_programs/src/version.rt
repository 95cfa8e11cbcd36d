//! The version by which a server and a command know that they are of one build.

/// The version of this build, as in the first line of the program's usage after `toll`. A server and a
/// command of different versions exchange nothing.
pub const VERSION: &str = "1.1, office format 2";
