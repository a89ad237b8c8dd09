//! The types that all crates share, and the traits for the outside: files, and a sink of text.
#![tactic(auto)]

mod core_version;
mod cursor;
mod errors;
mod failing_calls;
mod field_readers;
mod fields;
mod file_cursor;
mod files;
mod mem_files;
mod mem_sink;
mod name_bytes;
mod range;
mod sink;

pub use core_version::Core;
pub use cursor::Cursor;
pub use errors::{
    ABOVE_LIMIT, BAD_MAGIC, BAD_ORDER, BAD_VALUE, FormErr, NoMemory, SHORT, TRAILING, form_err_at,
};
pub use field_readers::{read_bytes, read_u8, read_u16, read_u32};
pub use fields::{bits, put_u16, put_u32, sext};
pub use file_cursor::FileCursor;
pub use files::{FileErr, Files};
pub use mem_files::MemFiles;
pub use mem_sink::MemSink;
pub use name_bytes::{are_name_bytes, is_name_byte, is_name_start};
pub use range::{Range, is_in_one_range};
pub use sink::{Sink, SinkErr};
