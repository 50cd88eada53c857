//! Whole runs over sources and sinks in memory that fail, which no program shows. Whole runs whose answers are known are data (`rows/`).
//!
//! `running` makes one run. `faults` has runs in which a read or a write fails, and `batches` the same where threads judge games side by side.
#![tactic(auto)]

#[cfg(test)]
mod batches;
#[cfg(test)]
mod faults;
#[cfg(test)]
mod running;
