//! `projfault`: runs a script from standard input as `projplay --history` does, over a port one of whose
//! calls fails. Its one argument is that call's number, counted from 1.
#![tactic(auto)]

use pj_io::{ReaderSource, Sink, Source, WriterSink};
use pj_port::MemoryPort;
use pj_server::{End, play, write_end};
use std::alloc::{AllocError, Global};
use std::process::ExitCode;
use std::rt::Env;
use std::{env, io};

fn main(rt: HostRuntime) -> ExitCode {
    let mut source = ReaderSource::new(rt.stdin());
    let mut sink = WriterSink::new(rt.stdout());
    let end = match failing_call(&rt) {
        Ok(Some(call)) => match play_over(rt.alloc(), call, &mut source, &mut sink) {
            Ok(end) => end,
            Err(AllocError) => End::NoMemory,
        },
        Err(fault) if fault.kind() == io::ErrorKind::OutOfMemory => End::NoMemory,
        Ok(None) | Err(_) => End::Usage,
    };
    let mut errors = WriterSink::new(rt.stderr());
    let _lost = write_end(&mut errors, end);
    ExitCode::from(end.status())
}

/// The number of the call that fails: the argument, or 0, which no call has, where there is none. None for
/// other arguments.
fn failing_call<R: Env + AllocGlobal>(rt: &R) -> io::Result<Option<u64>> {
    let mut arguments = env::args(rt)?;
    let number = match arguments.nth(1) {
        Some(word) => word.parse().ok(),
        None => Some(0),
    };
    match arguments.next() {
        Some(_) => Ok(None),
        None => Ok(number),
    }
}

/// Runs the script over a port whose call of this number fails.
fn play_over<R: Source, W: Sink>(
    alloc: Global,
    call: u64,
    source: &mut R,
    sink: &mut W,
) -> Result<End, AllocError> {
    let mut arguments = Vec::new(alloc);
    arguments.push(String::from_str(alloc, "projfault")?)?;
    arguments.push(String::from_str(alloc, "--history")?)?;
    let mut port = MemoryPort::new(vec![in alloc; call]?);
    let ran = play(alloc, arguments.as_slice(), source, sink, &mut port);
    Ok(ran.end)
}
