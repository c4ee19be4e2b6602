//! One session over a table: requests line by line, and a reply to each.
#![tactic(auto)]

mod answering;
mod hearing;
mod laws;
mod replying;
mod speaking;
mod talking;

pub use laws::{
    loaded_replies_of_a_log_have_one_text, one_reply_at_most_is_not_written,
    replies_are_right_of_the_log, replies_are_right_together,
    replies_where_nobody_else_ratifies_are_uncontested,
    replies_where_nobody_else_stages_are_untaken,
};
pub use talking::session;
