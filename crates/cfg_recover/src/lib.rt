//! The rules of certificates, K1 to K14: what a point owes, and when a certificate is accepted.
#![tactic(auto)]

mod after_return;
mod code_cache;
mod decoded_inst;
mod entered;
mod entry_changes;
mod flow_entries;
mod flow_interrupts;
mod flow_point;
mod flow_successors;
mod flow_targets;
mod flow_types;
mod keys;
mod laws;
mod local_rules;
mod operation_cache;
mod rom_code;
mod start;

pub use after_return::after;
pub use code_cache::KnownCodes;
pub use entered::{may_be_misaligned, push_entered_keys};
pub use entry_changes::{
    aln_entry_change, call_entry_change, handler_entry_change, sys_entry_change,
};
pub use flow_interrupts::possible_irqs;
pub use flow_point::flow;
pub use flow_successors::write_successor_change;
pub use flow_targets::{direct_target, targets};
pub use flow_types::{Enter, Flow, Jump, Leave};
pub use keys::{aln_key, entered_key, irq_key, sys_key};
pub use laws::{duty_soundness_laws, edge_and_frame_laws, fault_laws, refusal_laws};
pub use local_rules::{Located, broken_rule_unless, check_decoded_instruction, check_local_rules};
pub use operation_cache::OperationCache;
pub use rom_code::{are_bytes_in_rom, code_at};
pub use start::{start_key, start_state};
