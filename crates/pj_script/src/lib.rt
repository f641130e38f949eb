//! Reads the lines of a script, exactly as docs/GRAMMAR.md has them.
#![tactic(auto)]

mod lines;
pub mod types;

pub use lines::{
    ScriptFault, lines_rise, no_script_with_a_bad_line, one_bad_line, one_reading, script,
    script_or_bad_line,
};
