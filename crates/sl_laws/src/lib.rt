//! Laws of the one server beyond those that stand beside its definition: what calls and flushes leave a tree.
#![tactic(auto)]

mod laws;
mod seeing;

pub use laws::{
    always_a_tree, changes_commute, cuts_stay_zero, flush_keeps_tree, fresh_is_tree,
    makings_alone_use_ids, parents_end_at_root, perform_keeps_tree, refused_makings_use_no_id,
};
pub use seeing::{
    attributes_suffice, bytes_only_show, flush_keeps_bytes, flush_keeps_views, flushes_are_unseen,
    views_follow,
};

#[cfg(test)]
mod tests;
