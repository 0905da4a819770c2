// The archive of the C interface: each call of fustorbel, exported with the contract that it has there. include/fustorbel.h
// declares them for C.
#![tactic(auto)]

pub mod events;
pub mod looks;
pub mod memory;
pub mod partition_calls;
pub mod platform_calls;
pub mod properties;
pub mod reading;
pub mod trees;
pub mod updates;
