//! Reads the lines of a script, from the start, each line once.
ghost use Rattle.std.specs.Prelude.{◌≡◌, ◌+◌, ◌<◌, ◌==◌, not, ◌≤◌, ◌∷◌, length, position};
ghost use Rattle.std.specs.Prelude.{bytes_eq, option_map, IfOk, IfErr, OnOk, vec_len};
ghost use Rattle.std.specs.List.{prefix_len, suffix_len};
ghost use Rattle.pj_script.specs.declared.lines.ScriptFault.TheVariants as faults;
ghost use Rattle.pj_lex.specs.Bytes.{is_blank, is_small};
ghost use Rattle.pj_script.specs.Lines.{pieces, is_name_byte, names_limit, IsScript, HasLineCause};
ghost use Rattle.pj_script.specs.LineLaws.{OneReading, ScriptOrBadLine, NoScriptWithABadLine};
ghost use Rattle.pj_script.specs.LineLaws.{OneBadLine, LinesRise};
ghost use Rattle.pj_script.specs.ReadingLines.{Gives, before_blanks, is_skipped};
ghost use Rattle.pj_script.specs.ReadingLines.{is_name, name_and_rest, begins_start, is_body};
ghost use Rattle.pj_script.specs.ReadingLines.{body_of, numbered, line_at, script_of};

use crate::types::{Act, Script, ScriptLine, ScriptMode};
use pj_lex::bytes::{is_blank, skip_blanks};
use pj_value::{List, NoMemory, Text};
use std::alloc::{AllocError, AllocFailed, Global};
use thiserror::Error;

/// Why a script was not read.
#[derive(Clone, Copy, Debug, PartialEq, Eq, Error)]
pub enum ScriptFault {
    /// The first line that is neither skipped nor a line of the mode. Lines count from 1, skipped ones too.
    #[error("bad script line {line}")]
    BadLine { line: u32 },
    /// Out of memory.
    #[error("out of memory")]
    NoMemory,
}

impl From<NoMemory> for ScriptFault {
    ghost from_gives = { λ _ e. e ≡ faults.NoMemory };

    fn from(_e: NoMemory) -> ScriptFault {
        ScriptFault::NoMemory
    }
}

impl From<AllocError> for ScriptFault {
    ghost from_gives = { λ _ e. e ≡ faults.NoMemory };

    fn from(_e: AllocError) -> ScriptFault {
        ScriptFault::NoMemory
    }
}

impl<T: Drop> From<AllocFailed<T>> for ScriptFault {
    ghost from_gives = { λ _ e. e ≡ faults.NoMemory };

    fn from(_e: AllocFailed<T>) -> ScriptFault {
        ScriptFault::NoMemory
    }
}

fn is_name_byte(b: u8) -> bool
    ensures { result ≡ is_name_byte b }
{
    b.is_ascii_lowercase() || b.is_ascii_digit() || b == b'_'
}

/// How many blanks the bytes end with.
fn blanks_at_end(bytes: &[u8]) -> usize
    ensures count { result ≡ suffix_len is_blank bytes.now }
    ensures bound { result ≤ length bytes.now }
{
    bytes.iter().rev().take_while(|b| is_blank(**b)).count()
}

/// How many bytes at the start may stand in a name.
fn name_len(bytes: &[u8]) -> usize
    ensures count { result ≡ prefix_len is_name_byte bytes.now }
    ensures bound { result ≤ length bytes.now }
{
    bytes.iter().take_while(|b| is_name_byte(**b)).count()
}

/// How many bytes stand before the first line feed.
fn piece_len(bytes: &[u8]) -> usize
    ensures count { result ≡ prefix_len (λ b. not (b == 10)) bytes.now }
    ensures bound { result ≤ length bytes.now }
{
    bytes.iter().take_while(|b| **b != b'\n').count()
}

/// The bytes before the blanks at the end.
fn before_blanks(bytes: &[u8]) -> &[u8]
    ensures { result.now ≡ before_blanks bytes.now }
{
    bytes.split_at(bytes.len() - blanks_at_end(bytes)).0
}

/// The bytes before the first line feed, and those behind it.
fn next_piece(bytes: &[u8]) -> (&[u8], &[u8])
    requires { 0 < length bytes.now }
    ensures cut { pieces bytes.now ≡ result.0.now ∷ pieces result.1.now }
    ensures shorter { length result.1.now < length bytes.now }
{
    let (piece, behind) = bytes.split_at(piece_len(bytes));
    match behind {
        [] => (piece, behind),
        [_, rest @ ..] => (piece, rest),
    }
}

fn is_skipped(piece: &[u8]) -> bool
    ensures { result ≡ is_skipped piece.now }
{
    match skip_blanks(piece) {
        [] => true,
        [first, ..] => *first == b'#',
    }
}

/// Whether bytes that may stand in a name are one.
fn is_name(word: &[u8]) -> bool
    ensures { result ≡ is_name word.now }
{
    match word {
        [] => false,
        [first, more @ ..] => first.is_ascii_lowercase() && more.len() < 32,
    }
}

/// The name that the bytes begin with, and the rest behind its colon.
#[tactic(auto, unfolding(crate::specs::ReadingLines::name_and_rest))]
fn name_and_rest(bytes: &[u8]) -> Option<(&[u8], &[u8])>
    ensures { option_map (λ x. (x.0.now, x.1.now)) result ≡ name_and_rest bytes.now }
{
    let (name, behind) = bytes.split_at(name_len(bytes));
    if !is_name(name) {
        return None;
    }
    match skip_blanks(behind) {
        [b':', rest @ ..] => Some((name, rest)),
        _ => None,
    }
}

/// Whether the bytes are `start`, alone or with a blank behind it.
fn begins_start(bytes: &[u8]) -> bool
    ensures { result ≡ begins_start bytes.now }
{
    match bytes.strip_prefix(b"start".as_slice()) {
        None => false,
        Some([]) => true,
        Some([next, ..]) => is_blank(*next),
    }
}

/// Whether bytes without blanks at their ends are a body.
fn is_body(bytes: &[u8]) -> bool
    ensures { result ≡ is_body bytes.now }
{
    !(bytes.is_empty() || bytes == b"finish".as_slice() || begins_start(bytes))
}

/// The body that a rest has between its blanks.
#[tactic(auto, unfolding(crate::specs::ReadingLines::body_of))]
fn body_of(rest: &[u8]) -> Option<&[u8]>
    ensures { option_map (λ x. x.now) result ≡ body_of rest.now }
{
    let body = before_blanks(skip_blanks(rest));
    if is_body(body) { Some(body) } else { None }
}

/// How many sessions a script may name.
fn limit_of_names(mode: ScriptMode) -> u32
    ensures { result ≡ names_limit mode }
{
    match mode {
        ScriptMode::Play => 1,
    }
}

/// The index of a name among the names.
fn number_among(names: &[Text], name: &[u8]) -> Option<usize>
    ensures { result ≡ position (λ known. bytes_eq known name.now) names.now }
{
    names.iter().position(|known| known.as_slice() == name)
}

/// The number of a name. A new one goes behind the others, if the mode lets the script have one more.
#[tactic(auto, unfolding(crate::specs::ReadingLines::numbered))]
fn number_of(
    alloc: Global,
    mode: ScriptMode,
    line: u32,
    names: &mut Vec<Text>,
    name: &[u8],
) -> Result<u32, ScriptFault>
    requires few { vec_len names.old ≤ names_limit mode }
    ensures number { Gives (λ number. (names.new.items, number)) result
        (numbered mode line names.old.items name.now) }
    ensures few { OnOk result (vec_len names.new ≤ names_limit mode) }
{
    let limit = limit_of_names(mode) as usize;
    let len = names.len();
    if let Some(known) = number_among(names, name) {
        return Ok(known as u32);
    }
    if limit <= len {
        return Err(ScriptFault::BadLine { line });
    }
    names.push(Text::new(alloc, name)?)?;
    Ok(len as u32)
}

/// The line that a piece spells, if it isn't skipped.
#[tactic(auto, unfolding(crate::specs::ReadingLines::line_at))]
fn read_line(
    alloc: Global,
    mode: ScriptMode,
    number: u32,
    names: &mut Vec<Text>,
    piece: &[u8],
) -> Result<Option<ScriptLine>, ScriptFault>
    requires few { vec_len names.old ≤ names_limit mode }
    ensures line { Gives (λ line. (names.new.items, line)) result
        (line_at mode number names.old.items piece.now) }
    ensures few { OnOk result (vec_len names.new ≤ names_limit mode) }
{
    if is_skipped(piece) {
        return Ok(None);
    }
    let bad = ScriptFault::BadLine { line: number };
    let (name, rest) = name_and_rest(skip_blanks(piece)).ok_or(bad)?;
    let body = body_of(rest).ok_or(bad)?;
    let name = number_of(alloc, mode, number, names, name)?;
    let act = Act::Whole(Text::new(alloc, body)?);
    Ok(Some(ScriptLine {
        line: number,
        name,
        act,
    }))
}

/// The lines of the bytes, read one after the other.
fn read_lines(alloc: Global, bytes: &[u8], mode: ScriptMode) -> Result<Script, ScriptFault>
    requires { length bytes.now ≤ 4294967295 }
    ensures { Gives (λ script. script) result (script_of mode bytes.now) }
{
    let mut names = Vec::new(alloc);
    let mut lines = Vec::new(alloc);
    let mut number = 0;
    let mut rest = bytes;
    'pieces: while !rest.is_empty() {
        let (piece, behind) = next_piece(rest);
        number += 1;
        let line = read_line(alloc, mode, number, &mut names, piece)?;
        if let Some(line) = line {
            lines.push(line)?;
        }
        rest = behind;
    }
    Ok(Script {
        names: List::from_vec(names),
        lines: List::from_vec(lines),
    })
}

/// The script that the bytes spell. Takes time in step with the bytes, and memory for its names and bodies.
pub fn script(alloc: Global, bytes: &[u8], mode: ScriptMode) -> Result<Script, ScriptFault>
    requires { length bytes.now ≤ 4294967295 }
    ensures found { IfOk result (λ script. IsScript mode bytes.now script) }

    // Bytes spell a script or have a bad line (`script_or_bad_line`), none do both
    // (`no_script_with_a_bad_line`), and none have two first bad lines (`one_bad_line`), so these leave one
    // answer beside out of memory.
    ensures bad { IfErr result (λ fault. HasLineCause mode bytes.now fault) }
{
    read_lines(alloc, bytes, mode)
}

/// Bytes spell one script at most.
pub fn one_reading()
    ensures { OneReading }
{}

/// Bytes have one first bad line at most.
pub fn one_bad_line()
    ensures { OneBadLine }
{}

/// Bytes spell a script, or have a bad line.
pub fn script_or_bad_line()
    ensures { ScriptOrBadLine }
{}

/// Bytes with a bad line spell no script.
pub fn no_script_with_a_bad_line()
    ensures { NoScriptWithABadLine }
{}

/// The numbers of a script's lines rise from 1, each line has a name of the script, and its mode lets it have
/// so many names.
pub fn lines_rise()
    ensures { LinesRise }
{}
