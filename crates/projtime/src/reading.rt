//! Reading: what it takes to read the bodies of a script.
ghost use Rattle.std.specs.Prelude.{◌≤◌, length, IfOk};
ghost use Rattle.pj_lex.specs.Tokens.{AreTokens};

use crate::layer::{Layer, since};
use pj_lex::{Token, tokens};
use pj_parse::types::{Act, ScriptMode, Statement};
use pj_parse::{read_insert, script, statement};
use pj_value::NoMemory;
use std::alloc::Global;
use std::time::CpuClock;

/// The most bytes that a text of a statement may have.
const TEXT: usize = 65_535;

/// What reads the bodies of a script, layer by layer.
#[derive(Debug, Drop)]
pub struct Reading {
    /// `read_insert`, and how many INSERTs it read. Each body is given to it.
    pub inserts: Layer,
    /// `tokens`, and how many there are in the other bodies.
    pub tokens: Layer,
    /// `statement`, and how many of these there are.
    pub statements: Layer,
}

/// How long `read_insert`, `tokens` and `statement` took for the bodies of a script, in the order in which
/// the server calls them. What is let go again, and all else, is not in these times.
pub fn timed<R: CpuClock>(rt: &R, alloc: Global, bytes: &[u8]) -> anyhow::Result<Reading>
    requires { length bytes.now ≤ 4294967295 }
{
    let script = script(alloc, bytes, ScriptMode::Play)?;
    let mut reading = Reading {
        inserts: Layer::new("inserts"),
        tokens: Layer::new("tokens"),
        statements: Layer::new("statements"),
    };
    'lines: for line in script.lines.as_slice() {
        let Act::Whole(body) = &line.act;
        if !insert(rt, alloc, body.as_slice(), &mut reading.inserts)? {
            let found = cut(rt, alloc, body.as_slice(), &mut reading.tokens)?;
            parse(
                rt,
                alloc,
                body.as_slice(),
                found.as_slice(),
                &mut reading.statements,
            )?;
        }
    }
    Ok(reading)
}

/// Whether the body is an INSERT that is read at once.
fn insert<R: CpuClock>(
    rt: &R,
    alloc: Global,
    body: &[u8],
    layer: &mut Layer,
) -> anyhow::Result<bool> {
    let start = rt.thread_cpu_time()?;
    let read = read_insert(alloc, body, TEXT);
    let took = since(rt, start);
    let was_read = is_there(read)?;
    layer.add(u64::from(was_read), took?);
    Ok(was_read)
}

/// Whether a statement was read, which is let go.
fn is_there(read: Result<Option<Statement>, NoMemory>) -> Result<bool, NoMemory> {
    let Some(_statement) = read? else {
        return Ok(false);
    };
    Ok(true)
}

/// The tokens of a body.
fn cut<R: CpuClock>(
    rt: &R,
    alloc: Global,
    body: &[u8],
    layer: &mut Layer,
) -> anyhow::Result<Vec<Token>>
    ensures { IfOk result (λ found. AreTokens body.now found.items) }
{
    let start = rt.thread_cpu_time()?;
    let found = tokens(alloc, body);
    let took = since(rt, start)?;
    let found = found?;
    layer.add(found.len() as u64, took);
    Ok(found)
}

/// Reads the statement of these tokens.
fn parse<R: CpuClock>(
    rt: &R,
    alloc: Global,
    body: &[u8],
    found: &[Token],
    layer: &mut Layer,
) -> anyhow::Result<()>
    requires { AreTokens body.now found.now }
{
    let start = rt.thread_cpu_time()?;
    let read = statement(alloc, body, found);
    let took = since(rt, start)?;
    let _statement = read?;
    layer.add(1, took);
    Ok(())
}
