//! Tests of what shows that a side cannot mate: sets of squares, small material, and certificates. What `check` answers of the texts of
//! certificates are rows of data (`rows/runs/certificates.txt`, `rows/runs/certificate-texts.txt`).
//!
//! `set_rows` has the rows of sets; `closed_sets` and `mates_in_reach` put sets, which `written_sets` reads, to the checker.
//! `small_material` has pairs of kinds, `shared_sets` certificates whose sets are shared, and `certificate_texts` texts of both versions.
#![tactic(auto)]

#[cfg(test)]
mod certificate_texts;
#[cfg(test)]
mod closed_sets;
#[cfg(test)]
mod mates_in_reach;
#[cfg(test)]
mod set_rows;
#[cfg(test)]
mod shared_sets;
#[cfg(test)]
mod small_material;
#[cfg(test)]
mod written_sets;
