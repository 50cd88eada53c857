//! Certificates checked by several threads: each node on its own, and the first that fails is the answer.
//!
//! `nodes` has the check of one node, and `checking` that of all.
#![tactic(auto)]

mod checking;
mod nodes;

pub use checking::check_par;
pub use nodes::node_fails;
