//! Reading: the bytes of a body become a statement, or have a first cause why they don't.
ghost use Rattle.std.specs.Prelude.{◌↔◌, IfOk, IsTrue};
ghost use Rattle.pj_lex.specs.Tokens.{AreTokens};
ghost use Rattle.pj_legal.specs.Bodies.{IsLongText, HasLongText};
ghost use Rattle.pj_legal.specs.Bodies.{IsParsed};

use pj_bind::types::{LimitName, Refusal};
use pj_grammar::types::Statement;
use pj_insert::read_insert;
use pj_lex::{LexFault, Token, TokenKind, tokens};
use pj_parse::{ParseFault, statement};
use pj_value::NoMemory;
use std::alloc::Global;

/// What a body is read as.
#[derive(Debug, Drop)]
pub enum Parsed {
    /// The statement that it spells.
    Statement(Statement),
    /// It can't be read, for this first cause.
    Refused(Refusal),
}

/// The most bytes that a text of a statement may have.
const TEXT: usize = 65_535;

/// The statement of the body, or the first cause why it has none. Takes time linear in the body. An INSERT is
/// read without a list of its tokens, if it can be; all else, and each refusal, is told by its tokens.
pub fn read_statement(alloc: Global, body: &[u8]) -> Result<Parsed, NoMemory>
    ensures { IfOk result (IsParsed body.now) }
{
    match read_insert(alloc, body, TEXT)? {
        Some(insert) => Ok(Parsed::Statement(insert)),
        None => read_by_tokens(alloc, body),
    }
}

/// The statement of the body by its tokens, or the first cause why it has none.
fn read_by_tokens(alloc: Global, body: &[u8]) -> Result<Parsed, NoMemory>
    ensures { IfOk result (IsParsed body.now) }
{
    match tokens(alloc, body) {
        Ok(tokens) => read_tokens(alloc, body, tokens.as_slice()),
        Err(LexFault::BadToken { at }) => Ok(Parsed::Refused(Refusal::Syntax(at))),
        Err(LexFault::NoMemory) => Err(NoMemory),
    }
}

/// The statement of the body's tokens, or the first cause why it has none.
fn read_tokens(alloc: Global, body: &[u8], tokens: &[Token]) -> Result<Parsed, NoMemory>
    requires { AreTokens body.now tokens.now }
    ensures { IfOk result (IsParsed body.now) }
{
    match statement(alloc, body, tokens) {
        Ok(statement) => {
            if has_long_text(body, tokens) {
                Ok(Parsed::Refused(Refusal::Limit(LimitName::Text)))
            } else {
                Ok(Parsed::Statement(statement))
            }
        }
        Err(ParseFault::TooMany) => Ok(Parsed::Refused(Refusal::Limit(LimitName::Tokens))),
        Err(ParseFault::Syntax { at }) => Ok(Parsed::Refused(Refusal::Syntax(at))),
        Err(ParseFault::NoMemory) => Err(NoMemory),
    }
}

/// Whether one of the body's texts is too long. No text is longer than the body.
fn has_long_text(body: &[u8], tokens: &[Token]) -> bool
    requires { AreTokens body.now tokens.now }
    ensures { IsTrue result ↔ HasLongText tokens.now }
{
    body.len() > TEXT && any_long_text(tokens)
}

fn any_long_text(tokens: &[Token]) -> bool
    ensures { IsTrue result ↔ HasLongText tokens.now }
{
    tokens.iter().any(is_long_text)
}

fn is_long_text(token: &Token) -> bool
    ensures { IsTrue result ↔ IsLongText token.now }
{
    match &token.kind {
        TokenKind::Text(text) => text.as_slice().len() > TEXT,
        TokenKind::Word | TokenKind::Number(_) | TokenKind::Symbol(_) => false,
    }
}
