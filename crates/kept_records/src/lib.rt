//! What marking says of each vertex of a graph, as records of vertices: definitions and laws alone. Records are those of the marked
//! grove exactly where each is right by those of its neighbours; and after one edit the records are those that were kept, but for
//! the vertices that one walk down from the heads of the changed trees judges again. What keeps marks from edit to edit stands on
//! this crate.
#![tactic(auto)]

mod laws;

pub use laws::{
    a_walk_goes_child_by_child, a_walk_stays_in_its_tree, cycles_stay_by_the_target,
    demands_are_told_by_numbers, each_vertex_has_one_record, every_edit_has_a_walk,
    every_edit_has_one_size, marking_tells_the_records, new_trees_are_touched,
    one_walk_renews_the_records, only_children_give, records_are_right_at_each_vertex,
    same_graphs_have_the_same_records, trees_of_concern_change, trees_of_no_concern_stay,
    vertices_that_came_are_near, walks_are_within_the_size, what_is_left_keeps_its_record,
    whole_trees_renew_the_records, whole_trees_weigh_twice_their_nodes,
};
