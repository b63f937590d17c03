//! When a certificate's trees are valid, and that a valid certificate proves the headline.
//!
//! Laws, and the choices of which a cover tree's nodes speak. The definitions in `specs/` are those of validity: a
//! change there changes which certificates are accepted.
//!
//! Begin with `a_valid_certificate_proves_the_headline`, `a_valid_cover_tree_covers` and
//! `a_valid_gap_tree_leaves_no_better`. Free to change: the proofs. Relied on: the checker judges these
//! definitions and the placer makes certificates that meet them; a tree that is valid with no gap fenced is
//! valid with any gaps fenced (`a_tighter_mode_keeps_a_cover`), which lets the solver search once.
#![tactic(auto)]

mod choice;
mod laws;

pub use cert_forest::Rule;
pub use choice::{Choice, OpenChoice, event_of};
pub use laws::{
    a_bound_by_runs_leaves_no_better, a_packing_bounds_each_set, a_split_loses_no_set,
    a_tighter_mode_keeps_a_cover, a_valid_certificate_proves_the_headline,
    a_valid_cover_tree_covers, a_valid_fenced_tree_serves, a_valid_gap_tree_leaves_no_better,
    a_valid_tree_lists_every_outcome, children_are_judged_in_order, own_store_is_told,
    store_buffering_is_certified, the_children_are_determined,
};
