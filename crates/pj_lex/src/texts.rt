//! Texts: what stands between two quotes, piece by piece.
ghost use Rattle.std.specs.Prelude.{◌≡◌};
ghost use Rattle.pj_lex.specs.declared.token.TokenKind.TheVariants as kinds;
ghost use Rattle.pj_lex.specs.TokenReading.{Gives, escaped, Steps, pieces_at, text_of};

use crate::stuck::Stuck;
use crate::token::TokenKind;
use pj_value::Text;
use std::alloc::Global;

/// What stands first in bytes that are inside a text.
#[derive(Clone, Copy)]
pub enum Piece<'a> {
    /// The byte that the piece stands for, and the bytes behind the piece.
    Byte(u8, &'a [u8]),
    /// The quote that ends the text, by the bytes behind it.
    Close(&'a [u8]),
    /// A backslash with which no piece begins.
    BadEscape,
    /// Nothing: the body ends here.
    NoEnd,
}

/// The byte that a backslash and this byte stand for.
fn escaped(b: u8) -> Option<u8>
    ensures { result ≡ escaped b }
{
    match b {
        b'\'' => Some(b'\''),
        b'\\' => Some(b'\\'),
        b't' => Some(b'\t'),
        b'n' => Some(b'\n'),
        b'r' => Some(b'\r'),
        b'0' => Some(0),
        _ => None,
    }
}

/// The piece at the start.
#[tactic(auto, unfolding(crate::specs::TokenReading::pieces_at))]
fn next_piece(bytes: &[u8]) -> Piece<'_>
    ensures { Steps result bytes.now }
{
    match bytes {
        [] => Piece::NoEnd,
        [b'\'', b'\'', rest @ ..] => Piece::Byte(b'\'', rest),
        [b'\'', rest @ ..] => Piece::Close(rest),
        [b'\\', b, rest @ ..] => match escaped(*b) {
            Some(byte) => Piece::Byte(byte, rest),
            None => Piece::BadEscape,
        },
        [b'\\'] => Piece::BadEscape,
        [b, rest @ ..] => Piece::Byte(*b, rest),
    }
}

/// The text whose first quote stands before the bytes inside, and the bytes behind it. Where it has no end,
/// `bytes` tell the offset.
pub fn text_inside<'a>(
    alloc: Global,
    bytes: &'a [u8],
    inside: &'a [u8],
) -> Result<(Text, &'a [u8]), Stuck<'a>>
    ensures { Gives (λ x. (kinds.Text x.0, x.1.now)) result (text_of bytes.now (pieces_at inside.now)) }
{
    let mut text = Vec::new(alloc);
    let mut rest = inside;
    'pieces: loop {
        match next_piece(rest) {
            Piece::Byte(byte, behind) => {
                text.push(byte)?;
                rest = behind;
            }
            Piece::Close(behind) => return Ok((Text::from_vec(text), behind)),
            Piece::BadEscape => return Err(Stuck::At(rest)),
            Piece::NoEnd => return Err(Stuck::At(bytes)),
        }
    }
}

/// The text at the start as a token.
pub fn read_text<'a>(
    alloc: Global,
    bytes: &'a [u8],
    inside: &'a [u8],
) -> Result<(TokenKind, &'a [u8]), Stuck<'a>>
    ensures { Gives (λ x. (x.0, x.1.now)) result (text_of bytes.now (pieces_at inside.now)) }
{
    match text_inside(alloc, bytes, inside) {
        Ok((text, behind)) => Ok((TokenKind::Text(text), behind)),
        Err(stuck) => Err(stuck),
    }
}
