//! Values, a finite lattice of sets of words, and states of 27 registers over them.
#![tactic(auto)]

mod lattice;
mod laws;
mod limits;
mod meets;
mod merged_lists;
mod states;
mod values;

pub use lattice::{
    Extent, cover, cover_words, extent_of, extent_with_words, is_extent_in_span, is_value, join,
    join_into, join_word, join_word_list, leq, write_cover, write_cover_words, write_span,
};
pub use laws::{state_laws, value_laws};
pub use limits::Bounds;
pub use meets::{write_meet_with_set, write_meet_with_span};
pub use states::{
    A10_SLOT, State, copy_locals, covers, covers_context, flags_imply, join_locals, join_states,
};
pub use values::{
    Val, Words, alignment_log2, copy_to, is_equal_span, is_set, member, set_span, set_word,
    set_words, span_len, write_any,
};
