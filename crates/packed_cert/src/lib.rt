//! Certificates on the bytes of their file.
#![tactic(auto)]

mod cert_reader;
mod certs;
mod covered_values;
mod exits;
mod next_covers;
mod node_reader;
mod nodes;
mod places;
mod point_reader;
mod repeated_bytes;
mod restored_values;
mod states;
mod value_reader;
mod values_at_places;
mod walks;

pub use certs::Cert;
pub use exits::ExitAt;
pub use nodes::Node;
pub use places::PointPlace;
pub use states::StateAt;
pub use walks::PointWalk;
