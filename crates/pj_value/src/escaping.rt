//! How a text is written in a text line of output: a tab ends a value and a line feed a row. And how one is
//! read.
ghost use Rattle.std.specs.Prelude.{◌≡◌, ◌<◌, ◌≤◌, ℕ, ◌++◌, drop, length, slice_index, take};
ghost use Rattle.std.specs.Prelude.{IfOk, IfSome, IsNone, OnOk, OnErr};
ghost use Rattle.std.specs.List.{prefix_len};
ghost use Rattle.pj_value.specs.Escaping.{escaped, escaped_byte, is_plain, meaning, Spells, HasNoLetter};
ghost use Rattle.pj_value.specs.Escaping.{IsBadEscape};
ghost use Rattle.pj_value.specs.EscapingLaws.{EscapedIsRead, OneText, NoTextWithABadEscape, OneBadEscape};
ghost use Rattle.pj_value.specs.EscapingLaws.{TextOrBadEscape};

use crate::memory::{NoMemory, UnescapeFault};
use crate::text::Text;
use std::alloc::Global;

/// Writes a text behind what `out` holds. After an error `out` holds a part of it. It is never inlined: where
/// values are told apart it would save its registers for each number too.
#[inline(never)]
pub fn escape(text: &[u8], out: &mut Vec<u8>) -> Result<(), NoMemory>
    ensures ok { OnOk result (out.new.items ≡ out.old.items ++ escaped text.now) }
    ensures err { OnErr result ((n : ℕ) × (out.new.items ≡ out.old.items ++ take n (escaped text.now))) }
{
    if plain_len(text) == text.len() {
        out.extend_from_slice(text)?;
        return Ok(());
    }
    escape_pieces(text, out)
}

/// The same for a text of which a byte or more isn't plain: the plain bytes between two of these at once.
#[inline(never)]
fn escape_pieces(text: &[u8], out: &mut Vec<u8>) -> Result<(), NoMemory>
    ensures ok { OnOk result (out.new.items ≡ out.old.items ++ escaped text.now) }
    ensures err { OnErr result ((n : ℕ) × (out.new.items ≡ out.old.items ++ take n (escaped text.now))) }
{
    let mut at = 0;
    'pieces: while at < text.len() {
        let end = at + plain_len(&text[at..]);
        if at < end {
            out.extend_from_slice(&text[at..end])?;
            at = end;
        } else {
            escape_byte(text[at], out)?;
            at += 1;
        }
    }
    Ok(())
}

/// How many plain bytes a text begins with. It reads these and one byte more.
fn plain_len(text: &[u8]) -> usize
    ensures plain { result ≡ prefix_len is_plain text.now }
    ensures within { result ≤ length text.now }
{
    text.iter().take_while(|byte| is_plain(**byte)).count()
}

/// Whether the byte is written as it is.
fn is_plain(byte: u8) -> bool
    ensures { result ≡ is_plain byte }
{
    byte != b'\\' && byte != b'\t' && byte != b'\n' && byte != b'\r' && byte != 0
}

/// Writes a byte of a text behind what `out` holds, whole or not at all.
fn escape_byte(byte: u8, out: &mut Vec<u8>) -> Result<(), NoMemory>
    ensures ok { OnOk result (out.new.items ≡ out.old.items ++ escaped_byte byte) }
    ensures err { OnErr result (out.new.items ≡ out.old.items) }
{
    let written: &[u8] = match byte {
        b'\\' => b"\\\\",
        b'\t' => b"\\t",
        b'\n' => b"\\n",
        b'\r' => b"\\r",
        0 => b"\\0",
        _ => return Ok(out.push(byte)?),
    };
    Ok(out.extend_from_slice(written)?)
}

/// Reads the text that these bytes spell. It takes time linear in the bytes.
///
/// A backslash and the letter behind it stand for one byte together, and other bytes for themselves.
pub fn unescape(alloc: Global, text: &[u8]) -> Result<Text, UnescapeFault>
    ensures read { IfOk result (λ t. Spells text.now t) }

    // No bytes both spell a text and have a bad escape (`text_or_bad_escape`).
    ensures bad { (at : ℕ) → result ≡ Err (UnescapeFault.BadEscape at) → IsBadEscape text.now at }
{
    let mut read = Vec::new(alloc);
    let mut at = 0;
    'pieces: while at < text.len() {
        let byte = text[at];
        if byte != b'\\' {
            read.push(byte)?;
            at += 1;
        } else {
            let Some(meant) = byte_at(text, at + 1) else {
                return Err(UnescapeFault::BadEscape { at });
            };
            read.push(meant)?;
            at += 2;
        }
    }
    Ok(Text::from_vec(read))
}

/// The byte that the letter at this offset stands for behind a backslash.
fn byte_at(all: &[u8], at: usize) -> Option<u8>
    ensures some { IfSome result (λ b. (at < length all.now) × (meaning (slice_index all.now at) ≡ Some b)) }
    ensures none { IsNone result → HasNoLetter (drop at all.now) }
{
    let letter = all.get(at)?;
    byte_of(*letter)
}

/// The byte that a letter stands for behind a backslash.
fn byte_of(letter: u8) -> Option<u8>
    ensures { result ≡ meaning letter }
{
    match letter {
        b'\\' => Some(b'\\'),
        b'\'' => Some(b'\''),
        b't' => Some(b'\t'),
        b'n' => Some(b'\n'),
        b'r' => Some(b'\r'),
        b'0' => Some(0),
        _ => None,
    }
}

/// What `escape` writes is read as the text that it was given.
pub fn unescape_undoes_escape()
    ensures { EscapedIsRead }
{}

/// Bytes spell one text, or have one first bad escape, and not both.
pub fn text_or_bad_escape()
    ensures one_text { OneText }
    ensures not_both { NoTextWithABadEscape }
    ensures one_offset { OneBadEscape }
    ensures some { TextOrBadEscape }
{}
