//! Plans: how they are read, held, laid out and written. The theorems on what they mean, on their texts and on their layout are
//! those of `meaning`, `grammar` and `layout`.
#![tactic(auto)]

mod laid;
mod outlined;
mod parsing;
mod plan;
mod reading;
mod rendering;
mod writer;
mod writing_laws;

pub use grammar::{
    Leaf, Marks, PlanError, Refusal, always_decided, answers_worked, beginnings_live, firsts_agree,
    forms_are_accepted, refusals_agree, takings_agree,
};
pub use layout::{
    Item, Line, Link, Size, Sort, Tree, few_moves_leave, outlines_are_whole, plans_are_laid,
};
pub use meaning::{
    beginnings_tested, combs_are_shuffles, combs_nest_freely, cuts_are_formed, cuts_are_listed,
    cuts_finish, depth_is_greatest, ends_are_single, interleave_is_n_ary, items_are_counted,
    limits_are_tested, lock_guards_outside, logs_listed, logs_tested, marks_split_back,
    near_rank_is_mistaken, nesting_is_free, nestings_agree, permitted_by_separators,
    permitted_listed, permitted_tested, plans_are_walked, separators_agree, sequence_is_not_locked,
    shuffle_commutes, shuffle_is_of_two, shuffle_regroups, strands_have_pieces, strands_listed,
    three_nest_freely, walks_read_beginnings, walks_read_permitted, widest_is_attained,
    worked_examples,
};
pub use parsing::parse;
pub use plan::Plan;
pub use reading::{Counts, read};
pub use spots::RowMove;
pub use writing_laws::{
    leaves_have_one_reading, lengths_are_bounded, texts_are_written_back, texts_have_one_reading,
    texts_of_leaves_decide, texts_of_names_decide,
};
