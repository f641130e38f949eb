//! Reads the statement of a body.
ghost use Rattle.std.specs.Prelude.{◌≡◌, ◌↔◌, ℕ, ◌-◌, ◌≤◌, length, drop, IfOk, IsTrue, Err};
ghost use Rattle.pj_lex.specs.Tokens.{AreTokens};
ghost use Rattle.pj_grammar.specs.Lexemes.{lexemes};
ghost use Rattle.pj_grammar.specs.grammar.Statements.{IsStatement};
ghost use Rattle.pj_grammar.specs.SyntaxErrors.{BeginsInsert, HasTooMany, offset_of, IsSyntaxError};
ghost use Rattle.pj_grammar.specs.parsing.Statements.{whole_sentence};
ghost use Rattle.pj_parse.specs.Whole.{GivesWhole};

use pj_grammar::types::Statement;
use pj_grammar::words::spells;
use pj_lex::Token;
use pj_phrase::tokens::rest::{Fault, Next, Rest};
use pj_sentence::statements::sentence;
use std::alloc::Global;
use thiserror::Error;

/// Why tokens were not read as a statement.
#[derive(Clone, Copy, Debug, PartialEq, Eq, Error)]
pub enum ParseFault {
    /// There are more than 1,024 tokens, and the first isn't the word INSERT.
    #[error("too many tokens")]
    TooMany,
    /// The tokens are no statement, and this is the offset of the first that doesn't fit, or the body's end.
    #[error("syntax error at {at}")]
    Syntax { at: usize },
    /// Out of memory.
    #[error("out of memory")]
    NoMemory,
}

/// The most tokens that a statement may have, unless the first is the word INSERT.
const TOKENS: usize = 1024;

/// Whether the first token is the word INSERT.
fn begins_insert(rest: &Rest<'_>) -> bool
    ensures { IsTrue result ↔ BeginsInsert rest.now }
{
    match rest.next() {
        Some((Next::Word(word), _)) => spells(b"INSERT", word),
        _ => false,
    }
}

/// The statement of these tokens, where nothing stands behind it.
#[tactic(auto, unfolding(pj_grammar::specs::parsing::Statements::whole_sentence))]
fn whole_sentence<'a>(alloc: Global, rest: Rest<'a>) -> Result<Statement, Fault<'a>>
    ensures { GivesWhole result (whole_sentence rest.entry) }
{
    // No parentheses nest deeper than there are tokens.
    let most = rest.len();
    let (statement, rest) = sentence(alloc, most, rest)?;
    match rest.next() {
        None => Ok(statement),
        Some(_) => Err(Fault::Stuck(rest)),
    }
}

/// Where the first of the last `left` tokens stands, or the end of the body where there is none of them.
fn offset_of(body: &[u8], tokens: &[Token], left: usize) -> usize
    requires { left ≤ length tokens.now }
    ensures { result ≡ offset_of body.now (drop (length tokens.now - left) tokens.now) }
{
    let (_, rest) = tokens.split_at(tokens.len() - left);
    match rest {
        [] => body.len(),
        [token, ..] => token.at,
    }
}

/// The statement of a body's tokens, as docs/GRAMMAR.md has them under "Statements". The tokens are read
/// once, from the left, each looked at a few times. Memory is taken for the statement alone. Parentheses nest
/// as deep as the limit of tokens lets them; each level takes some of the thread's stack.
pub fn statement(alloc: Global, body: &[u8], tokens: &[Token]) -> Result<Statement, ParseFault>
    requires { AreTokens body.now tokens.now }
    ensures found { IfOk result (IsStatement (lexemes body.now tokens.now)) }

    // Each refusal has its cause, and too many tokens come first.
    ensures many { (result ≡ Err ParseFault.TooMany) ↔ HasTooMany (lexemes body.now tokens.now) }
    ensures syntax { (at : ℕ) → result ≡ Err (ParseFault.Syntax at) → IsSyntaxError body.now tokens.now at }
{
    let rest = Rest::new(body, tokens);
    if tokens.len() > TOKENS && !begins_insert(&rest) {
        return Err(ParseFault::TooMany);
    }
    match whole_sentence(alloc, rest) {
        Ok(statement) => Ok(statement),
        Err(Fault::Stuck(rest)) => {
            let at = offset_of(body, tokens, rest.len());
            Err(ParseFault::Syntax { at })
        }
        Err(Fault::NoMemory) => Err(ParseFault::NoMemory),
    }
}
