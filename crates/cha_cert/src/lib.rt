//! Certificates that no series of legal moves mates for a side, and the check that believes nothing else.
//!
//! `nodes` has the certificate, `indexing` where positions stand in it, `checking` the check, and `law` what a valid
//! certificate means. `shared` has the certificate in which equal sets are written once, `sharing` the way there and back,
//! with `equal_sets`, and `shared_checking` its check.
#![tactic(auto)]

mod checking;
mod equal_sets;
mod indexing;
mod law;
mod nodes;
mod shared;
mod shared_checking;
mod sharing;

pub use checking::{Checked, check, check_counted};
pub use indexing::{Index, IndexEntry};
pub use law::valid_means_unwinnable;
pub use nodes::{Cert, Node, Part};
pub use shared::{SharedCert, SharedNode, SharedPart};
pub use shared_checking::{check_shared, check_shared_counted, shared_node_holds};
pub use sharing::{append, expand, share};
