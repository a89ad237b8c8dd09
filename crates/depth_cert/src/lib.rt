//! Keys, exits and points of certificates, and the file format that spells them.
#![tactic(auto)]

mod cert_reader;
mod errors;
mod keys;
mod laws;
mod lower_registers;
mod node_reader;
mod nodes;
mod point_reader;
mod points;
mod value_reader;
mod writing;

pub use cert_reader::{read_magic, read_node_count, read_version};
pub use errors::CertErr;
pub use keys::{ALN, CALL, IRQ, Key, START, SYS, key_kind_text, key_number};
pub use laws::cert_round_trip_law;
pub use lower_registers::lower_register_value;
pub use node_reader::{read_exit, read_exit_flag, read_key, read_need, read_point_count};
pub use nodes::blank_exit;
pub use point_reader::{read_address, read_locals};
pub use points::{Exit, Point};
pub use tcd_base::{form_err_at, put_u16};
pub use value_reader::{SPAN, read_flag, read_value, read_values};
pub use writing::{write_key, write_no_exit, write_value};
