//! One token, read from the start of the bytes that are left.
ghost use Rattle.std.specs.Prelude.{◌≡◌, ◌^◌, Some, None, nat_lt, option_map, if◌then◌else◌};
ghost use Rattle.pj_lex.specs.Bytes.{is_digit, AllAre};
ghost use Rattle.pj_lex.specs.Tokens.{digits_value};
ghost use Rattle.pj_lex.specs.TokenReading.{Gives, goes_on, word_at, number_at};
ghost use Rattle.pj_lex.specs.TokenReading.{symbol_of_two, symbol_of_one, two_at, one_at, symbol_at};
ghost use Rattle.pj_lex.specs.TokenReading.{symbol_token, plain_at, token_at};

use crate::bytes::{begins_word, digit_prefix, is_digit, is_word_byte, word_prefix};
use crate::stuck::Stuck;
use crate::texts::read_text;
use crate::token::{Symbol, TokenKind};
use std::alloc::Global;

/// The number of these digits, if it has at most 64 bits.
pub fn number_of(digits: &[u8]) -> Option<u64>
    requires { AllAre is_digit digits.now }
    ensures { let n = digits_value digits.now in result ≡ (if nat_lt n (2 ^ 64) then Some n else None) }
{
    let mut number: u64 = 0;
    for digit in digits {
        number = number
            .checked_mul(10)?
            .checked_add(u64::from(*digit - b'0'))?;
    }
    Some(number)
}

/// Whether a letter, a digit or `_` is next.
pub fn goes_on(bytes: &[u8]) -> bool
    ensures { result ≡ goes_on bytes.now }
{
    match bytes {
        [] => false,
        [b, ..] => is_word_byte(*b),
    }
}

/// The word at the start, where a letter or `_` is next.
#[tactic(auto, unfolding(crate::specs::TokenReading::word_at))]
fn read_word(bytes: &[u8]) -> (TokenKind, &[u8])
    ensures { (result.0, result.1.now) ≡ word_at bytes.now }
{
    let (_, rest) = bytes.split_at(word_prefix(bytes));
    (TokenKind::Word, rest)
}

/// The number at the start, where a digit is next.
#[tactic(auto, unfolding(crate::specs::TokenReading::number_at))]
fn read_number(bytes: &[u8]) -> Option<(TokenKind, &[u8])>
    ensures { option_map (λ x. (x.0, x.1.now)) result ≡ number_at bytes.now }
{
    let (digits, rest) = bytes.split_at(digit_prefix(bytes));
    if goes_on(rest) {
        return None;
    }
    let number = number_of(digits)?;
    Some((TokenKind::Number(number), rest))
}

/// The symbol that is spelled by two bytes.
fn symbol_of_two(first: u8, second: u8) -> Option<Symbol>
    ensures { result ≡ symbol_of_two first second }
{
    match (first, second) {
        (b'=', b'=') => Some(Symbol::Eq),
        (b'!', b'=') => Some(Symbol::Ne),
        (b'<', b'>') => Some(Symbol::Ne),
        (b'<', b'=') => Some(Symbol::Le),
        (b'>', b'=') => Some(Symbol::Ge),
        _ => None,
    }
}

/// The symbol that is spelled by one byte.
fn symbol_of_one(byte: u8) -> Option<Symbol>
    ensures { result ≡ symbol_of_one byte }
{
    match byte {
        b'(' => Some(Symbol::Left),
        b')' => Some(Symbol::Right),
        b',' => Some(Symbol::Comma),
        b';' => Some(Symbol::Semicolon),
        b'*' => Some(Symbol::Star),
        b'+' => Some(Symbol::Plus),
        b'%' => Some(Symbol::Percent),
        b'=' => Some(Symbol::Eq),
        b'<' => Some(Symbol::Lt),
        b'>' => Some(Symbol::Gt),
        _ => None,
    }
}

/// The symbol of two bytes at the start.
fn two_bytes(bytes: &[u8]) -> Option<(Symbol, &[u8])>
    ensures { option_map (λ x. (x.0, x.1.now)) result ≡ two_at bytes.now }
{
    match bytes {
        [first, second, rest @ ..] => Some((symbol_of_two(*first, *second)?, rest)),
        _ => None,
    }
}

/// The symbol of one byte at the start.
fn one_byte(bytes: &[u8]) -> Option<(Symbol, &[u8])>
    ensures { option_map (λ x. (x.0, x.1.now)) result ≡ one_at bytes.now }
{
    match bytes {
        [first, rest @ ..] => Some((symbol_of_one(*first)?, rest)),
        _ => None,
    }
}

/// The symbol at the start, the longest that there is.
#[tactic(auto, unfolding(crate::specs::TokenReading::symbol_at))]
fn read_symbol(bytes: &[u8]) -> Option<(TokenKind, &[u8])>
    ensures { option_map (λ x. (x.0, x.1.now)) result ≡ symbol_token (symbol_at bytes.now) }
{
    let (symbol, rest) = two_bytes(bytes).or(one_byte(bytes))?;
    Some((TokenKind::Symbol(symbol), rest))
}

/// The token at the start, where neither a blank nor a quote is next.
#[tactic(auto, unfolding(crate::specs::TokenReading::plain_at))]
fn read_plain(bytes: &[u8]) -> Option<(TokenKind, &[u8])>
    ensures { option_map (λ x. (x.0, x.1.now)) result ≡ plain_at bytes.now }
{
    match bytes {
        [] => None,
        [b, ..] if begins_word(*b) => Some(read_word(bytes)),
        [b, ..] if is_digit(*b) => read_number(bytes),
        _ => read_symbol(bytes),
    }
}

/// The token at the start, where no blank is next, and the bytes behind it. It takes time linear in the
/// token.
#[tactic(auto, unfolding(crate::specs::TokenReading::token_at))]
pub fn read_token(alloc: Global, bytes: &[u8]) -> Result<(TokenKind, &[u8]), Stuck<'_>>
    ensures { Gives (λ x. (x.0, x.1.now)) result (token_at bytes.now) }
{
    match bytes {
        [] => Err(Stuck::At(bytes)),
        [b'\'', inside @ ..] => read_text(alloc, bytes, inside),
        [_, ..] => read_plain(bytes).ok_or(Stuck::At(bytes)),
    }
}
