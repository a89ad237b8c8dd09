//! The maker's worklist algorithm, without states. Places of frames in a table: which have work,
//! which read which exits, their numbers and their order. And the calls between frames, by numbers
//! alone: the least needs, and which frames are reached from themselves.
#![tactic(auto)]

mod counting;
mod marks;
mod needs;
mod numbers;
mod ordering;
mod places;
mod readers;
mod refusals;
mod work_list;

pub use counting::record_place;
pub use marks::{begin_visit, end_visit, is_place_queued, is_plain_mark};
pub use needs::least::{least_needs, needs_in_few_passes};
pub use needs::ranks::{get_or_zero, topological_ranks};
pub use needs::reach::{
    FrameEdge, first_recursive_node, frame_edges, has_marked_node, reaching_marks,
};
pub use needs::row::NeedRow;
pub use numbers::{entered_frame_numbers, frame_number, frame_number_map, frame_number_with_hint};
pub use ordering::{PointEntry, numbers_of_keys, points_of_frame, sorted_frames, sorted_points};
pub use places::{
    Mark, Marked, Spot, add_or_find_place, add_queued_place, address_in_frame, place_address,
    set_and_queue_place,
};
pub use readers::{register_reader, requeue_readers_of};
pub use refusals::{LIMITS_RULE, LOCALS_RULE, NEEDS_RULE, Refusal};
pub use work_list::Work;
