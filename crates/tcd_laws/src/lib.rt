//! Laws over several commands, and over what is printed.
//!
//! **Edges.** If a certificate is accepted, the text of its graph has a line for each step of each
//! run from a start state, whatever interrupts, traps and answers of peripherals occur. The line
//! has the key of the step's frame, its address and its edge.
//!
//! **Call depth.** If a certificate is accepted, the calls that are nested in a run since the last
//! entry by an interrupt or a trap are at most the `longest` that its report has for the priority.
//!
//! **Commands one after another**, each on the files and the sink that the one before it left, up
//! to the first that isn't done. If the files are steady, the sink has room, and each command has
//! its inputs and is to be done, they end Done or out of memory. No fault is counted. If they are
//! Done, all files were written and all texts were printed, in order. If memory ran out in one
//! command, this holds of those before it, and that command printed nothing.
//!
//! **Objects, layouts and images.** The object of a source that breaks no rule keeps the limits of
//! objects. Its sections hold bytes, and so does its file. A layout that was read keeps the limits
//! of layouts. An image that is linked from such objects by such a layout keeps those of images.
//!
//! **Reading back.** If the contents of files are known, `link` reads an object that `asm` wrote as
//! exactly the object of its source. An executable that `link` wrote from object files of bytes is
//! read as exactly the image that was linked. Both hold up to 16,777,216 bytes, the most that a
//! command reads.
//!
//! **Builds.** A build is `asm` of sources that break no rule, `link` of their objects, and `dis`
//! of the executable. No object has the name of another object, of a source or of the layout. The
//! objects can be linked by the layout. If the files are steady, the sink has room, and no file is
//! longer than a command reads, a build ends Done or out of memory.
//!
//! **Claims.** What each command claims, as equations of the files before and after, of the printed
//! text and of all runs. They follow from the tool's promise alone, so a promise that says less is
//! refused here.
#![tactic(auto)]

mod laws;

pub use laws::{
    analysis_claim_laws, build_claim_laws, build_laws, call_depth_law, claim_laws, edge_law,
    ending_claim_laws, kept_limit_laws, read_back_laws, refusal_laws, sequence_law,
};
