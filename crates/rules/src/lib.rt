// The rules of a catalogue, as definitions, and the laws that hold of them.
#![tactic(auto)]

mod file_laws;
mod laws;
mod run_laws;
mod search_laws;
mod tree_laws;

pub use file_laws::{
    loaded_proper_stands, loaded_saves_stands, runs_save_stands, saved_loads_stands,
    saved_reads_stands,
};
pub use laws::{
    faults_refuse_stands, filled_slots_stands, hits_all_stands, hits_counted_stands,
    hits_within_stands, ranking_first_stands, ranking_only_stands, ranking_same_stands,
    worked_cases,
};
pub use run_laws::{
    enter_at_capacity_stands, runs_answer_stands, runs_go_on_stands, runs_keep_stands,
    runs_step_stands,
};
pub use search_laws::{
    rows_held_stands, rules_hold_stands, search_finds_stands, visited_hits_stands,
    walk_finds_stands,
};
pub use tree_laws::{
    choice_first_stands, dividing_builds_stands, division_best_stands, division_divides_stands,
    division_groups_stand, entering_adds_stands, entering_boxes_stands, entering_builds_stands,
    few_boxes_stands, low_tree_stands, never_shrinks_stands, withdrawing_keeps_stands,
    withdrawing_leaves_stands,
};
