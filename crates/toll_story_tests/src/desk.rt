//! Limits of an office, calls over a keep that once has no memory, and what an owner's rows say.

mod limits;
mod owners;
mod slices;
