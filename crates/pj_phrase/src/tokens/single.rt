//! What reads one token. Each reader gives what it took of the token, in memory of its own, and the rest.
#![tactic(auto, unfolding(pj_grammar::specs::parsing::Parser::one_at))]

ghost use Rattle.std.specs.Prelude.{◌≡◌, ◌&&◌, ◌==◌, nat_le, Option, Ok};
ghost use Rattle.pj_grammar.specs.Lexemes.{no_value, is_number, is_symbol, is_not_if};
ghost use Rattle.pj_grammar.specs.parsing.Parser.{one_at, optional_at};
ghost use Rattle.pj_phrase.specs.Given.{Gives, nothing_and};
ghost use Rattle.pj_grammar.specs.parsing.Words.{keyword_at, exactly_at, sign_at, name_at, list_name_at};
ghost use Rattle.pj_grammar.specs.parsing.Words.{name_but_if_at, list_name_but_if_at, function_name_at};
ghost use Rattle.pj_grammar.specs.parsing.Words.{number_that_at, number_at, positive_at, text_at};
ghost use Rattle.pj_grammar.specs.parsing.Words.{text_exactly_at};

use crate::tokens::rest::{Fault, Next, Rest};
use pj_grammar::words::{is_exactly, is_not_if, may_name, may_name_list, names_function, spells};
use pj_lex::Symbol;
use pj_value::Text;
use std::alloc::Global;

/// The keyword of these capitals.
pub fn keyword<'a>(capitals: &[u8], rest: Rest<'a>) -> Result<Rest<'a>, Fault<'a>>
    ensures { Gives nothing_and result (keyword_at capitals.now rest.entry) }
{
    match rest.next() {
        Some((Next::Word(word), behind)) if spells(capitals, word) => Ok(behind),
        _ => Err(Fault::Stuck(rest)),
    }
}

/// The word exactly.
pub fn exactly<'a>(bytes: &[u8], rest: Rest<'a>) -> Result<Rest<'a>, Fault<'a>>
    ensures { Gives nothing_and result (exactly_at bytes.now rest.entry) }
{
    match rest.next() {
        Some((Next::Word(word), behind)) if is_exactly(bytes, word) => Ok(behind),
        _ => Err(Fault::Stuck(rest)),
    }
}

/// The symbol.
pub fn sign<'a>(symbol: Symbol, rest: Rest<'a>) -> Result<Rest<'a>, Fault<'a>>
    ensures { Gives nothing_and result (sign_at symbol rest.entry) }
{
    match rest.next() {
        Some((Next::Symbol(next), behind)) if symbol == next => Ok(behind),
        _ => Err(Fault::Stuck(rest)),
    }
}

/// What is behind the symbol where that comes next, and else all that is left.
#[tactic(auto, unfolding(pj_grammar::specs::parsing::Parser::one_at, pj_grammar::specs::parsing::Parser::begins))]
pub fn pass_over<'a>(symbol: Symbol, rest: Rest<'a>) -> Rest<'a>
    ensures { (found : Option (Unit {0}))
        × (optional_at (is_symbol symbol) (sign_at symbol) rest.entry ≡ Ok (found, result)) }
{
    match rest.next() {
        Some((Next::Symbol(next), behind)) if symbol == next => behind,
        _ => rest,
    }
}

/// A name.
pub fn name<'a>(alloc: Global, rest: Rest<'a>) -> Result<(Text, Rest<'a>), Fault<'a>>
    ensures { Gives (λ x. x) result (name_at rest.entry) }
{
    match rest.next() {
        Some((Next::Word(word), behind)) if may_name(word) => Ok((Text::new(alloc, word)?, behind)),
        _ => Err(Fault::Stuck(rest)),
    }
}

/// A name before a parenthesis: no function's.
pub fn list_name<'a>(alloc: Global, rest: Rest<'a>) -> Result<(Text, Rest<'a>), Fault<'a>>
    ensures { Gives (λ x. x) result (list_name_at rest.entry) }
{
    match rest.next() {
        Some((Next::Word(word), behind)) if may_name_list(word) => Ok((
            Text::new(alloc, word)?,
            behind,
        )),
        _ => Err(Fault::Stuck(rest)),
    }
}

/// A name where the keyword IF could stand.
pub fn name_but_if<'a>(alloc: Global, rest: Rest<'a>) -> Result<(Text, Rest<'a>), Fault<'a>>
    ensures { Gives (λ x. x) result (name_but_if_at rest.entry) }
{
    match rest.next() {
        Some((Next::Word(word), behind)) if may_name(word) && is_not_if(word) => Ok((
            Text::new(alloc, word)?,
            behind,
        )),
        _ => Err(Fault::Stuck(rest)),
    }
}

/// A name before a parenthesis, where the keyword IF could stand.
pub fn list_name_but_if<'a>(alloc: Global, rest: Rest<'a>) -> Result<(Text, Rest<'a>), Fault<'a>>
    ensures { Gives (λ x. x) result (list_name_but_if_at rest.entry) }
{
    match rest.next() {
        Some((Next::Word(word), behind)) if may_name_list(word) && is_not_if(word) => Ok((
            Text::new(alloc, word)?,
            behind,
        )),
        _ => Err(Fault::Stuck(rest)),
    }
}

/// A function's word.
pub fn function_name<'a>(alloc: Global, rest: Rest<'a>) -> Result<(Text, Rest<'a>), Fault<'a>>
    ensures { Gives (λ x. x) result (function_name_at rest.entry) }
{
    match rest.next() {
        Some((Next::Word(word), behind)) if names_function(word) => Ok((
            Text::new(alloc, word)?,
            behind,
        )),
        _ => Err(Fault::Stuck(rest)),
    }
}

/// Any number.
pub fn number<'a>(rest: Rest<'a>) -> Result<(u64, Rest<'a>), Fault<'a>>
    ensures { Gives (λ x. x) result (number_at rest.entry) }
{
    match rest.next() {
        Some((Next::Number(n), behind)) => Ok((n, behind)),
        _ => Err(Fault::Stuck(rest)),
    }
}

/// The number.
pub fn number_exactly<'a>(number: u64, rest: Rest<'a>) -> Result<Rest<'a>, Fault<'a>>
    ensures { Gives nothing_and result (one_at (is_number (λ n. n == number)) no_value rest.entry) }
{
    match rest.next() {
        Some((Next::Number(n), behind)) if n == number => Ok(behind),
        _ => Err(Fault::Stuck(rest)),
    }
}

/// A number of at least 1.
pub fn positive<'a>(rest: Rest<'a>) -> Result<(u64, Rest<'a>), Fault<'a>>
    ensures { Gives (λ x. x) result (positive_at rest.entry) }
{
    match rest.next() {
        Some((Next::Number(n), behind)) if n >= 1 => Ok((n, behind)),
        _ => Err(Fault::Stuck(rest)),
    }
}

/// A number of rows that a granule may have.
pub fn granule_len<'a>(rest: Rest<'a>) -> Result<(u32, Rest<'a>), Fault<'a>>
    ensures { Gives (λ x. x) result (number_that_at (λ n. nat_le 1 n && nat_le n 65536) rest.entry) }
{
    match rest.next() {
        Some((Next::Number(n), behind)) if n >= 1 && n <= 65_536 => Ok((n as u32, behind)),
        _ => Err(Fault::Stuck(rest)),
    }
}

/// Any text.
pub fn text<'a>(alloc: Global, rest: Rest<'a>) -> Result<(Text, Rest<'a>), Fault<'a>>
    ensures { Gives (λ x. x) result (text_at rest.entry) }
{
    match rest.next() {
        Some((Next::Text(text), behind)) => Ok((text.duplicate(alloc)?, behind)),
        _ => Err(Fault::Stuck(rest)),
    }
}

/// The text exactly.
pub fn text_exactly<'a>(bytes: &[u8], rest: Rest<'a>) -> Result<Rest<'a>, Fault<'a>>
    ensures { Gives nothing_and result (text_exactly_at bytes.now rest.entry) }
{
    match rest.next() {
        Some((Next::Text(text), behind)) if is_exactly(bytes, text.as_slice()) => Ok(behind),
        _ => Err(Fault::Stuck(rest)),
    }
}
