//! `projtime`: times single layers on their own, for bench/. What was done goes to standard output, and how
//! long it took, in nanoseconds of processor time, to standard error.
#![tactic(auto)]

mod evaluation;
mod granules;
mod layer;
mod reading;

use layer::Layer;
use pj_io::{ReaderSource, read_all};
use std::io::Print;
use std::rt::Env;
use std::{env, io};

/// How many bytes a script may have.
const SCRIPT_BYTES: usize = 16_777_216;

fn main(rt: HostRuntime) -> anyhow::Result<()> {
    let word = second_word(&rt)?;
    match word.as_deref() {
        Some("read") => {
            let bytes = read_all(rt.alloc(), &mut ReaderSource::new(rt.stdin()), SCRIPT_BYTES)?;
            let reading = reading::timed(&rt, rt.alloc(), bytes.as_slice())?;
            reading.inserts.tell(&rt)?;
            reading.tokens.tell(&rt)?;
            reading.statements.tell(&rt)?;
            Ok(())
        }
        Some("eval") => {
            let (column, rows) = evaluation::timed(&rt, rt.alloc())?;
            column.tell(&rt)?;
            rows.tell(&rt)?;
            Ok(())
        }
        Some("layout") => {
            let granules = granules::timed(&rt, rt.alloc())?;
            granules.loops.tell(&rt)?;
            granules.numbers.tell(&rt)?;
            granules.texts.tell(&rt)?;
            Ok(())
        }
        _ => usage(&rt),
    }
}

/// The word behind the program's name.
fn second_word<R: Env + AllocGlobal>(rt: &R) -> io::Result<Option<String>> {
    Ok(env::args(rt)?.nth(1))
}

fn usage<R: Print>(rt: &R) -> anyhow::Result<()> {
    println!(rt; "usage: projtime read < script, projtime eval, or projtime layout")?;
    Ok(())
}
