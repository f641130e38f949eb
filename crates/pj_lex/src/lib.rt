//! Cuts the body of a statement into its tokens, exactly as docs/GRAMMAR.md has them.
#![tactic(auto)]

pub mod bytes;
mod cutting;
pub mod first;
mod laws;
mod scan;
mod stuck;
mod texts;
mod token;

pub use cutting::{LexFault, tokens};
pub use laws::{no_tokens_with_a_break, one_break, one_list, tokens_or_break};
pub use token::{Symbol, Token, TokenKind};
