//! What an answer to a request names, and what answers say together by what they name.
#![tactic(auto)]

mod laws;

pub use laws::{
    answers_in_a_chain_are_right_together, answers_stand_over_a_longer_log,
    answers_where_nobody_else_ratifies_are_uncontested,
    answers_where_nobody_else_stages_are_untaken, one_answer_at_most_is_not_written,
};
