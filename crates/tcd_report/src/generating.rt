// Images of any number of functions, and their plan.
pub(crate) mod appending;
pub(crate) mod functions;
pub(crate) mod generated_files;
pub(crate) mod program_segments;
