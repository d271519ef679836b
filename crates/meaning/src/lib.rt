//! What plans mean: strands, logs, cuts, moves, walks, counts, widths and limits, as definitions with theorems, each on the
//! contract of a small function.
#![tactic(auto)]

mod cut_laws;
mod strand_laws;

pub use cut_laws::{
    cuts_are_formed, cuts_are_listed, cuts_finish, depth_is_greatest, ends_are_single,
    items_are_counted, limits_are_tested, near_rank_is_mistaken, plans_are_walked,
    walks_read_beginnings, walks_read_permitted, widest_is_attained,
};
pub use strand_laws::{
    beginnings_tested, combs_are_shuffles, combs_nest_freely, interleave_is_n_ary,
    lock_guards_outside, logs_listed, logs_tested, marks_split_back, nesting_is_free,
    nestings_agree, permitted_by_separators, permitted_listed, permitted_tested, separators_agree,
    sequence_is_not_locked, shuffle_commutes, shuffle_is_of_two, shuffle_regroups,
    strands_have_pieces, strands_listed, three_nest_freely, worked_examples,
};
