//! Statements of assembler sources: the wants of rows, the row of a statement, and a line reader.
#![tactic(auto)]

mod data_values;
mod fill_fields;
mod form_index;
mod item;
mod laws;
mod line_reader;
mod names;
mod row_fields;
mod row_index;
mod row_wants;
mod shape_numbers;
mod source;
mod source_rules;
mod statement_row;
mod tally;
mod want;

pub use fill_fields::with_displacement;
pub use item::Item;
pub use laws::number_and_statement_laws;
pub use names::{is_source_name, rule_broken_by_symbol};
pub use row_fields::{NO_RELOC, Reference, RowFields, field_of, reference_to};
pub use row_wants::wants;
pub use shape_numbers::shape_index;
pub use source::{Line, Source, read_source};
pub use source_rules::{
    BAD_NAME, LABEL_TWICE, MISPLACED_SYMBOL, NO_RULE, NO_SECTION, PAST_LIMITS, UNDEFINED_GLOBAL,
};
pub use statement_row::row_of_statement;
pub use want::{Field, Want};
