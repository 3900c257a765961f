// The run file's format: records as samples, read and written (01, "The run file").
#![tactic(auto)]

pub mod file;
pub mod reading;
pub mod records;
