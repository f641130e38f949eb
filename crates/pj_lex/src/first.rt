//! The first token of some bytes, where it is the one that is asked for: for readers that know which token
//! may come, and keep no list of tokens. Each call takes time linear in the token and the blanks before it,
//! or what there is of a text that has no end.
ghost use Rattle.std.specs.Prelude.{◌≡◌, ◌↔◌, IsTrue, IfOk};
ghost use Rattle.pj_lex.specs.declared.token.Symbol.TheVariants as symbols;
ghost use Rattle.pj_lex.specs.declared.token.TokenKind.TheVariants as kinds;
ghost use Rattle.pj_lex.specs.Bytes.{IsBlank, after_blanks};
ghost use Rattle.pj_lex.specs.FirstToken.{IsFound, IsFoundNumber, IsFoundWord, IsFoundText, IsBehindFirst};
ghost use Rattle.pj_lex.specs.FirstToken.{begins_word_first};

use crate::bytes::{begins_word, digit_prefix, skip_blanks, word_prefix};
use crate::scan::{goes_on, number_of};
use crate::stuck::Stuck;
use crate::texts::text_inside;
use pj_value::{NoMemory, Text};
use std::alloc::Global;

/// The bytes behind this one, where it is the first that is no blank.
#[inline(always)]
fn behind_byte(byte: u8, bytes: &[u8]) -> Option<&[u8]>
    ensures { IsBehindFirst byte (after_blanks bytes.now) result }
{
    match skip_blanks(bytes) {
        [first, behind @ ..] if *first == byte => Some(behind),
        _ => None,
    }
}

/// The bytes behind `(`, where it is the first token.
#[inline(always)]
pub fn first_left(bytes: &[u8]) -> Option<&[u8]>
    ensures { IsFound (kinds.Symbol symbols.Left) bytes.now result }
{
    behind_byte(b'(', bytes)
}

/// The bytes behind `)`, where it is the first token.
#[inline(always)]
pub fn first_right(bytes: &[u8]) -> Option<&[u8]>
    ensures { IsFound (kinds.Symbol symbols.Right) bytes.now result }
{
    behind_byte(b')', bytes)
}

/// The bytes behind `,`, where it is the first token.
#[inline(always)]
pub fn first_comma(bytes: &[u8]) -> Option<&[u8]>
    ensures { IsFound (kinds.Symbol symbols.Comma) bytes.now result }
{
    behind_byte(b',', bytes)
}

/// The bytes behind `;`, where it is the first token.
pub fn first_semicolon(bytes: &[u8]) -> Option<&[u8]>
    ensures { IsFound (kinds.Symbol symbols.Semicolon) bytes.now result }
{
    behind_byte(b';', bytes)
}

/// The number that is the first token, and the bytes behind it.
#[inline(always)]
pub fn first_number(bytes: &[u8]) -> Option<(u64, &[u8])>
    ensures { IsFoundNumber bytes.now result }
{
    let bytes = skip_blanks(bytes);
    let (digits, behind) = bytes.split_at(digit_prefix(bytes));
    if digits.is_empty() {
        return None;
    }
    if goes_on(behind) {
        return None;
    }
    let number = number_of(digits)?;
    Some((number, behind))
}

/// The word that is the first token, by its bytes, and the bytes behind it.
pub fn first_word(bytes: &[u8]) -> Option<(&[u8], &[u8])>
    ensures { IsFoundWord bytes.now result }
{
    let bytes = skip_blanks(bytes);
    let (word, behind) = bytes.split_at(word_prefix(bytes));
    if begins_word_first(word) {
        Some((word, behind))
    } else {
        None
    }
}

/// Whether a letter or `_` is first.
fn begins_word_first(bytes: &[u8]) -> bool
    ensures { result ≡ begins_word_first bytes.now }
{
    match bytes {
        [] => false,
        [b, ..] => begins_word(*b),
    }
}

/// The text that is the first token, in memory of its own, and the bytes behind it.
pub fn first_text<'a>(alloc: Global, bytes: &'a [u8]) -> Result<Option<(Text, &'a [u8])>, NoMemory>
    ensures { IfOk result (IsFoundText bytes.now) }
{
    let Some(inside) = behind_byte(b'\'', bytes) else {
        return Ok(None);
    };
    match text_inside(alloc, inside, inside) {
        Ok((text, behind)) => Ok(Some((text, behind))),
        Err(Stuck::At(_)) => Ok(None),
        Err(Stuck::NoMemory) => Err(NoMemory),
    }
}

/// Whether the bytes are blanks alone, or none.
pub fn only_blanks(bytes: &[u8]) -> bool
    ensures { IsTrue result ↔ IsBlank bytes.now }
{
    skip_blanks(bytes).is_empty()
}
