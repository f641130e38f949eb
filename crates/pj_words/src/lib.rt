//! The arguments of `projplay`, read by `clap`: whether the text of the history is wanted, what the program
//! is to say of itself, or why they aren't taken.
#![tactic(auto)]

mod about;
mod command;
mod fault;
mod wishes;

pub use about::{About, about_text};
pub use fault::WordsFault;
pub use wishes::{asked_about, usage_text, wants_history};
