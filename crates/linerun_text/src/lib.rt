// The lines that linerun prints, as bytes. The crate needs neither the kernel nor output.
#![tactic(auto)]

pub mod lines;
