//! The certificate maker: the least certificate that the rules accept, or why there is none.
#![tactic(auto)]

mod answering;
mod calls;
mod covered;
mod entered_frames;
mod fixpoint;
mod inputs_and_limits;
mod interrupt_contexts;
mod interrupt_handlers;
mod join_entries;
mod join_place;
mod join_successors;
mod last_call;
mod laws;
mod needs;
mod passing;
mod recursion;
mod rows;
mod spelling;
mod table;
mod visit;

pub use answering::{MakeErr, make};
pub use laws::{
    accepted_cert_laws, derived_assignment_laws, duty_monotonicity_laws, effect_monotonicity_laws,
    least_cert_laws, return_state_laws,
};
