//! What is legal: the bound statement or the refusal of a body, the right replies, the legal histories, and
//! their texts.
#![tactic(auto)]

mod bodies;
mod bytes;
mod history;
mod laws;
mod reply;

pub use bodies::{Parsed, read_statement};
pub use history::history_text;
pub use laws::{
    announcements_are_told_apart, body_bound_or_refused, body_read_or_not, cut_runs,
    history_refuses_no_body, legal_replies_are_plain, names_are_unique, no_bound_body_is_refused,
    no_damage_where_told, one_body_bound, one_body_reading, one_body_refusal, port_refuses_no_body,
    replies_are_told_apart, run_goes_on, runs_are_legal, session_shares_go_on, shares_are_legal,
    text_fixes_replies, text_fixes_reply, texts_go_on, texts_tell_numbers, worker_shares_go_on,
};
pub use reply::{Reply, reply_text};
