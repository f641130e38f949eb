//! Reads the statements of bodies, exactly as docs/GRAMMAR.md has them; scripts are read by `pj_script`.
#![tactic(auto)]

pub mod types;
mod whole;

pub use pj_grammar::{one_error, one_statement, statement_or_error};
pub use pj_insert::read_insert;
pub use pj_script::{
    ScriptFault, lines_rise, no_script_with_a_bad_line, one_bad_line, one_reading, script,
    script_or_bad_line,
};
pub use whole::{ParseFault, statement};
