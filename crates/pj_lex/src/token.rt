//! The tokens of a body: what they are, and where their bytes lie.
use pj_value::Text;

/// A sign of one or two bytes. Two signs of one meaning are one symbol.
#[derive(Clone, Copy, Debug, PartialEq, Eq)]
pub enum Symbol {
    /// `(`.
    Left,
    /// `)`.
    Right,
    /// `,`.
    Comma,
    /// `;`.
    Semicolon,
    /// `*`.
    Star,
    /// `+`.
    Plus,
    /// `%`.
    Percent,
    /// `=` or `==`.
    Eq,
    /// `!=` or `<>`.
    Ne,
    /// `<`.
    Lt,
    /// `<=`.
    Le,
    /// `>`.
    Gt,
    /// `>=`.
    Ge,
}

/// What a token is. A word is spelled by its bytes alone, so it carries none.
#[derive(Debug, Drop)]
pub enum TokenKind {
    /// A letter or `_`, then letters, digits and `_`.
    Word,
    /// Digits, by the number that they stand for.
    Number(u64),
    /// What stands between two quotes, with each escape as the byte that it stands for.
    Text(Text),
    /// A sign, by its meaning.
    Symbol(Symbol),
}

/// A token, and where its bytes lie in the body: from `at` to `end`, quotes and escapes of a text with them.
#[derive(Debug, Drop)]
pub struct Token {
    pub kind: TokenKind,
    /// The offset of its first byte in the body.
    pub at: usize,
    /// The offset behind its last byte.
    pub end: usize,
}
