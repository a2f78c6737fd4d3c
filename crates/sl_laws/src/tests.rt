use super::*;

#[test]
fn laws_ask_for_nothing() {
    fresh_is_tree();
    flush_keeps_tree();
    parents_end_at_root();
    refused_makings_use_no_id();
    cuts_stay_zero();
    changes_commute();
    perform_keeps_tree();
    makings_alone_use_ids();
    always_a_tree();
    attributes_suffice();
    views_follow();
    flush_keeps_views();
    flush_keeps_bytes();
    flushes_are_unseen();
    bytes_only_show();
}
