//! The forms of input files, and the printed lines.
#![tactic(auto)]

mod error_lines;
mod file_forms;
mod result_lines;

pub use error_lines::{
    append_to_printed_line, bad_cert_line, bad_elf_line, bad_layout_line, bad_link_line,
    bad_object_line, bad_plan_line, bad_script_line, bad_source_line, cells_too_long_line,
    cert_too_long_line, copy_printed_line, elf_too_long_line, layout_too_long_line,
    object_too_long_line, plan_too_long_line, script_too_long_line, source_too_long_line,
    tasks_too_long_line,
};
pub use file_forms::{
    CertFile, ElfFile, LIMIT, LayoutFile, ObjectFile, PlacedSourceFile, PlanFile, ScriptFile,
    Source, SourceFile,
};
pub use result_lines::{
    assembled_object_line, boot_line, bootgen_line, certified_cells_line, certified_line,
    certified_tasks_line, gen_line, linked_image_line, refused_line, refused_sum_line,
    refused_switch_line, refused_task_line, run_line,
};
