//! Cuts a body into its tokens, from the start, in one scan.
ghost use Rattle.std.specs.Prelude.{◌≡◌, ◌-◌, ◌≤◌, length, IfOk, IfErr};
ghost use Rattle.pj_lex.specs.declared.cutting.LexFault.TheVariants as faults;
ghost use Rattle.pj_lex.specs.Tokens.{AreTokens};
ghost use Rattle.pj_lex.specs.Faults.{HasLexCause};
ghost use Rattle.pj_lex.specs.BodyReading.{IsNextToken};

use crate::bytes::skip_blanks;
use crate::scan::read_token;
use crate::stuck::Stuck;
use crate::token::Token;
use std::alloc::{AllocFailed, Global};
use thiserror::Error;

/// Why a body was not cut into tokens.
#[derive(Clone, Copy, Debug, PartialEq, Eq, Error)]
pub enum LexFault {
    /// No token stands at this byte of the body, counted from 0. In a text it is the backslash of a bad
    /// escape, or the first quote where the text has no end.
    #[error("bad token at byte {at}")]
    BadToken { at: usize },
    /// Out of memory: the body may have tokens or not.
    #[error("out of memory")]
    NoMemory,
}

impl<T: Drop> From<AllocFailed<T>> for LexFault {
    ghost from_gives = { λ _ e. e ≡ faults.NoMemory };

    fn from(_e: AllocFailed<T>) -> LexFault {
        LexFault::NoMemory
    }
}

/// The first token of the bytes that are left of a body of this size, and the bytes behind it. None where
/// blanks alone are left.
fn next_token(alloc: Global, size: usize, rest: &[u8]) -> Result<Option<(Token, &[u8])>, LexFault>
    requires { length rest.now ≤ size }
    ensures { IsNextToken (size - length rest.now) rest.now result }
{
    let bytes = skip_blanks(rest);
    if bytes.is_empty() {
        return Ok(None);
    }
    match read_token(alloc, bytes) {
        Ok((kind, behind)) => {
            let at = size - bytes.len();
            let end = size - behind.len();
            Ok(Some((Token { kind, at, end }, behind)))
        }
        Err(Stuck::At(bad)) => Err(LexFault::BadToken {
            at: size - bad.len(),
        }),
        Err(Stuck::NoMemory) => Err(LexFault::NoMemory),
    }
}

/// The tokens of a body, as docs/GRAMMAR.md has them under "Tokens", in their order; none where the body is
/// blank. It takes time linear in the body, and memory for the tokens and their texts alone.
pub fn tokens(alloc: Global, body: &[u8]) -> Result<Vec<Token>, LexFault>
    ensures tokens { IfOk result (λ found. AreTokens body.now found.items) }

    // A body has tokens or breaks (`tokens_or_break`), and none does both (`no_tokens_with_a_break`),
    // so these leave one answer beside out of memory.
    ensures bad { IfErr result (HasLexCause body.now) }
{
    let mut tokens = Vec::new(alloc);
    let mut rest = body;
    'tokens: while let Some((token, behind)) = next_token(alloc, body.len(), rest)? {
        tokens.push(token)?;
        rest = behind;
    }
    Ok(tokens)
}
