// Letters, sets, boxes, plans and clips: the space in which clips are described.
#![tactic(auto)]

mod boxes;
mod clip;
mod described;
mod laws;
mod plan;

pub use boxes::{
    DIMENSIONS, MOST_CLIPS, area, common_area, contains, has, is_dimensions, join, point, rewrite,
    set_of,
};
pub use clip::{Clip, StoredClip};
pub use described::Described;
pub use laws::{areas_stand, around_exact_stands, in_around_stands, in_point_stands};
pub use plan::{ClipFault, PlanFault, check_clip, check_plan, check_vector};

#[cfg(test)]
mod tests;
