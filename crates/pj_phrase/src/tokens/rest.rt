//! The tokens that are left of a body, and what the next ones are.
#![tactic(auto, unfolding(pj_grammar::specs::parsing::Parser::begins, pj_grammar::specs::parsing::Parser::begins_both))]

ghost use Rattle.std.specs.Prelude.{◌≡◌, ℕ, length, codes};
ghost use Rattle.std.specs.List.{AllByRecursion};
ghost use Rattle.pj_lex.specs.declared.token.Symbol.TheVariants.{Left};
ghost use Rattle.pj_phrase.specs.declared.tokens.rest.Fault.TheVariants as faults;
ghost use Rattle.pj_grammar.specs.Lexemes.{LiesIn, lexemes, is_symbol, is_keyword, is_exactly, is_any_number};
ghost use Rattle.pj_grammar.specs.Lexemes.{is_any_text, is_text_exactly, is_function_name};
ghost use Rattle.pj_grammar.specs.parsing.Parser.{begins, begins_both};
ghost use Rattle.pj_phrase.specs.Given.{IsNext};
ghost use Rattle.pj_grammar.specs.parsing.Settings.{is_zero};
ghost use Rattle.pj_grammar.specs.Lexemes.{is_aggregate};

use pj_grammar::words::{is_exactly, names_aggregate, names_function, spells};
use pj_lex::{Symbol, Token, TokenKind};
use pj_value::{NoMemory, Text};
use std::alloc::{AllocError, AllocFailed};
use std::marker::Model;

/// The tokens that are left of a body, which contracts see as lexemes.
#[derive(Drop)]
pub struct Rest<'a> {
    body: &'a [u8],
    tokens: &'a [Token],
}

impl<'a> Model for Rest<'a> {
    ghost use Rattle.std.specs.Prelude.{List};
    ghost use Rattle.std.specs.List.{AllByRecursion};
    ghost use Rattle.pj_grammar.specs.Lexemes.{Lexeme, lexemes, LiesIn};

    ghost Value = { List Lexeme };

    ghost view = { λ r. lexemes r.body.now r.tokens.now };

    ghost invariant = { λ r. AllByRecursion (LiesIn r.body.now) r.tokens.now };
}

/// A token, lent.
#[derive(Clone, Copy)]
pub enum Next<'a> {
    /// A word, by its bytes.
    Word(&'a [u8]),
    Number(u64),
    Text(&'a Text),
    Symbol(Symbol),
}

/// Why a reader stopped.
#[derive(Drop)]
pub enum Fault<'a> {
    /// No statement goes on with the first of these.
    Stuck(Rest<'a>),
    /// Out of memory.
    NoMemory,
}

impl<'a> From<NoMemory> for Fault<'a> {
    ghost from_gives = { λ _ e. e ≡ faults.NoMemory };

    fn from(_e: NoMemory) -> Fault<'a> {
        Fault::NoMemory
    }
}

impl<'a> From<AllocError> for Fault<'a> {
    ghost from_gives = { λ _ e. e ≡ faults.NoMemory };

    fn from(_e: AllocError) -> Fault<'a> {
        Fault::NoMemory
    }
}

impl<'a, T: Drop> From<AllocFailed<T>> for Fault<'a> {
    ghost from_gives = { λ _ e. e ≡ faults.NoMemory };

    fn from(_e: AllocFailed<T>) -> Fault<'a> {
        Fault::NoMemory
    }
}

impl<'a> Rest<'a> {
    /// All tokens of the body.
    pub fn new(body: &'a [u8], tokens: &'a [Token]) -> Rest<'a>
        requires { AllByRecursion (LiesIn body.now) tokens.now }
        ensures { result ≡ lexemes body.now tokens.now }
    {
        Rest { body, tokens }
    }

    /// How many tokens are left.
    pub fn len(&self) -> usize
        ensures { result ≡ length self.now }
    {
        self.tokens.len()
    }

    /// The next token, and what is behind it.
    pub fn next(&self) -> Option<(Next<'a>, Rest<'a>)>
        ensures { IsNext result self.now }
    {
        match self.tokens {
            [] => None,
            [token, tokens @ ..] => {
                let next = match &token.kind {
                    TokenKind::Word => Next::Word(&self.body[token.at..token.end]),
                    TokenKind::Number(n) => Next::Number(*n),
                    TokenKind::Text(text) => Next::Text(text),
                    TokenKind::Symbol(symbol) => Next::Symbol(*symbol),
                };
                Some((
                    next,
                    Rest {
                        body: self.body,
                        tokens,
                    },
                ))
            }
        }
    }

    /// Whether the next token is the keyword of these capitals.
    pub fn begins_keyword(&self, capitals: &[u8]) -> bool
        ensures { result ≡ begins (is_keyword capitals.now) self.now }
    {
        match self.next() {
            Some((Next::Word(word), _)) => spells(capitals, word),
            _ => false,
        }
    }

    /// Whether the next token is the symbol.
    pub fn begins_symbol(&self, symbol: Symbol) -> bool
        ensures { result ≡ begins (is_symbol symbol) self.now }
    {
        match self.next() {
            Some((Next::Symbol(next), _)) => symbol == next,
            _ => false,
        }
    }

    /// Whether the next token is this word exactly.
    pub fn begins_exactly(&self, bytes: &[u8]) -> bool
        ensures { result ≡ begins (is_exactly bytes.now) self.now }
    {
        match self.next() {
            Some((Next::Word(word), _)) => is_exactly(bytes, word),
            _ => false,
        }
    }

    /// Whether the next token is a word of a function.
    pub fn begins_function_name(&self) -> bool
        ensures { result ≡ begins is_function_name self.now }
    {
        match self.next() {
            Some((Next::Word(word), _)) => names_function(word),
            _ => false,
        }
    }

    /// Whether the next token is a number.
    pub fn begins_number(&self) -> bool
        ensures { result ≡ begins is_any_number self.now }
    {
        match self.next() {
            Some((Next::Number(_), _)) => true,
            _ => false,
        }
    }

    /// Whether the next token is the number 0.
    pub fn begins_zero(&self) -> bool
        ensures { result ≡ begins is_zero self.now }
    {
        match self.next() {
            Some((Next::Number(n), _)) => n == 0,
            _ => false,
        }
    }

    /// Whether the next token is a text.
    pub fn begins_text(&self) -> bool
        ensures { result ≡ begins is_any_text self.now }
    {
        match self.next() {
            Some((Next::Text(_), _)) => true,
            _ => false,
        }
    }

    /// Whether the next token is this text.
    pub fn begins_text_exactly(&self, bytes: &[u8]) -> bool
        ensures { result ≡ begins (is_text_exactly bytes.now) self.now }
    {
        match self.next() {
            Some((Next::Text(text), _)) => is_exactly(bytes, text.as_slice()),
            _ => false,
        }
    }

    /// Whether the next two tokens begin a quotient.
    pub fn begins_quotient(&self) -> bool
        ensures { result ≡ begins_both (is_exactly (codes "intDiv")) (is_symbol Left) self.now }
    {
        match self.next() {
            Some((Next::Word(word), behind)) => {
                is_exactly(b"intDiv", word) && behind.begins_symbol(Symbol::Left)
            }
            _ => false,
        }
    }

    /// Whether the next two tokens begin a call of an aggregate function.
    pub fn begins_call(&self) -> bool
        ensures { result ≡ begins_both is_aggregate (is_symbol Left) self.now }
    {
        match self.next() {
            Some((Next::Word(word), behind)) => {
                names_aggregate(word) && behind.begins_symbol(Symbol::Left)
            }
            _ => false,
        }
    }
}
