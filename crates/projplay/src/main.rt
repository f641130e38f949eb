//! `projplay`: runs a script of SQL sessions from standard input and writes the replies to standard output.
//! Standard error gets why a run failed.
#![tactic(auto)]

use pj_io::{GiveFault, ReaderSource, Sink, WriterSink, write_all};
use pj_port::MemoryPort;
use pj_server::{End, play, write_end};
use pj_value::NoMemory;
use pj_words::{About, about_text, asked_about, usage_text};
use std::alloc::Global;
use std::process::ExitCode;
use std::rt::Env;
use std::{env, io};

const NO_TEXT: &[u8] = b"projplay: an argument is no text of UTF-8\n";

fn main(rt: HostRuntime) -> ExitCode {
    let mut errors = WriterSink::new(rt.stderr());
    let arguments = match arguments(&rt) {
        Ok(arguments) => arguments,
        Err(fault) if fault.kind() == io::ErrorKind::OutOfMemory => {
            return ended(End::NoMemory, &mut errors);
        }
        Err(_) => {
            let _lost = write_all(&mut errors, NO_TEXT);
            return ExitCode::from(2);
        }
    };
    let mut sink = WriterSink::new(rt.stdout());
    match asked_about(rt.alloc(), arguments.as_slice()) {
        Ok(Some(about)) => return ended(tell(rt.alloc(), about, &mut sink), &mut errors),
        Ok(None) => {}
        Err(NoMemory) => return ended(End::NoMemory, &mut errors),
    }
    let mut source = ReaderSource::new(rt.stdin());
    let mut port = MemoryPort::new(Vec::new(rt.alloc()));
    let ran = play(
        rt.alloc(),
        arguments.as_slice(),
        &mut source,
        &mut sink,
        &mut port,
    );
    if ran.end == End::Usage {
        return refused(rt.alloc(), arguments.as_slice(), &mut errors);
    }
    ended(ran.end, &mut errors)
}

/// Writes what the program says of itself.
fn tell<W: Sink>(alloc: Global, about: About, sink: &mut W) -> End {
    match about_text(alloc, about) {
        Ok(text) => match write_all(sink, text.as_bytes()) {
            Ok(()) => End::Finished,
            Err(GiveFault::Failed) => End::SinkFailed,
            Err(GiveFault::NoMemory) => End::NoMemory,
        },
        Err(NoMemory) => End::NoMemory,
    }
}

/// Says how the program ended, and gives the status of that. What can't be written is lost.
fn ended<W: Sink>(end: End, errors: &mut W) -> ExitCode {
    let _lost = write_end(errors, end);
    ExitCode::from(end.status())
}

/// Says why the arguments aren't taken, in fewer words where there is no memory for those of `clap`.
fn refused<W: Sink>(alloc: Global, arguments: &[String], errors: &mut W) -> ExitCode {
    match usage_text(alloc, arguments) {
        Ok(Some(text)) => {
            let _lost = write_all(errors, text.as_bytes());
            ExitCode::from(2)
        }
        Ok(None) | Err(NoMemory) => ended(End::Usage, errors),
    }
}

/// The arguments of the command, the program's name first.
fn arguments<R: Env + AllocGlobal>(rt: &R) -> io::Result<Vec<String>> {
    let mut arguments = Vec::new(rt.alloc());
    for argument in env::args(rt)? {
        arguments.push(argument)?;
    }
    Ok(arguments)
}
