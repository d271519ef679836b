//! The texts of plans: their grammar, when and why a text is refused, and the one text that a plan is written as, as
//! definitions with theorems; and the types of leaves and refusals.
#![tactic(auto)]

mod form_laws;
mod leaf;
mod refusal;

pub use form_laws::{
    always_decided, answers_worked, beginnings_live, firsts_agree, forms_are_accepted,
    refusals_agree, takings_agree,
};
pub use leaf::{Leaf, Marks};
pub use refusal::{PlanError, Refusal};
