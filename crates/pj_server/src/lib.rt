//! The server: one thread that runs the statements of a script, and the top call of `projplay`.
#![tactic(auto)]

mod ending;
mod playing;
mod refusals;
mod runs;
mod server;
mod store;

pub use ending::{End, write_end};
pub use playing::{Played, Ran, play, play_bytes};
