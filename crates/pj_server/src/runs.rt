//! The lines of a script, run in their order, each reply written as it comes.
ghost use Rattle.std.specs.Prelude.{◌≡◌, ◌<◌, ◌≤◌, ℕ, length};
ghost use Rattle.std.specs.List.{AllByRecursion};
ghost use Rattle.pj_io.specs.Faults.{Rose};
ghost use Rattle.pj_legal.specs.Statements.{statement_of, body_of as body_of_act};
ghost use Rattle.pj_server.specs.PortFaults.{counted};
ghost use Rattle.pj_server.specs.RunLines.{Writes, RunsLine, RunsLines};

use crate::ending::End;
use crate::server::{By, Server};
use pj_io::{GiveFault, Sink, write_all};
use pj_legal::{reply_text, run_goes_on, texts_go_on};
use pj_port::Port;
use pj_script::types::{Act, ScriptLine};
use pj_value::Text;
use std::alloc::Global;

/// Writes a text.
pub(crate) fn write_text<W: Sink>(sink: &mut W, text: &[u8]) -> End
    ensures written { Writes result (W.taken sink.old) (W.taken sink.new) text.now }
    ensures later { W.faults sink.old ≤ W.faults sink.new }
    ensures failed { result ≡ End.SinkFailed → Rose (W.faults sink.old) (W.faults sink.new) }
    ensures calm { (result ≡ End.SinkFailed → ⊥) → W.faults sink.new ≡ W.faults sink.old }
{
    match write_all(sink, text) {
        Ok(()) => End::Finished,
        Err(GiveFault::Failed) => End::SinkFailed,
        Err(GiveFault::NoMemory) => End::NoMemory,
    }
}

/// The body of an act, lent.
fn body_of(act: &Act) -> &[u8]
    ensures { result.now ≡ body_of_act act.now }
{
    match act {
        Act::Whole(body) => body.as_slice(),
    }
}

/// Runs a line of a session of this name, and writes its reply.
fn run_line<W: Sink, P: Port>(
    alloc: Global,
    server: &mut Server<P>,
    names: &[Text],
    line: &ScriptLine,
    sink: &mut W,
    port: &mut P,
) -> End
    requires { line.now.name < length names.now }
    ensures run { RunsLine P.Blob.tells result server.old server.new names.now (statement_of line.now)
        (W.taken sink.old) (W.taken sink.new) (counted (P.faults port.old) (P.reads port.old))
        (counted (P.faults port.new) (P.reads port.new)) }
    ensures later { W.faults sink.old ≤ W.faults sink.new }
    ensures failed { result ≡ End.SinkFailed → Rose (W.faults sink.old) (W.faults sink.new) }
    ensures calm { (result ≡ End.SinkFailed → ⊥) → W.faults sink.new ≡ W.faults sink.old }
{
    let by = By {
        session: line.name,
        line: line.line,
    };
    let reply = server.statement(alloc, port, by, body_of(&line.act));
    match reply_text(alloc, line.line, &names[line.name as usize], &reply) {
        Ok(text) => write_text(sink, text.as_slice()),
        Err(_) => End::NoMemory,
    }
}

/// Runs lines in their order, up to the first whose reply could not be written whole.
pub(crate) fn run_lines<W: Sink, P: Port>(
    alloc: Global,
    server: &mut Server<P>,
    names: &[Text],
    lines: &[ScriptLine],
    sink: &mut W,
    port: &mut P,
) -> End
    requires { AllByRecursion (λ line. line.name < length names.now) lines.now }
    ensures run { (count : ℕ)
        × RunsLines P.Blob.tells result count server.old server.new names.now lines.now (W.taken sink.old)
        (W.taken sink.new) (counted (P.faults port.old) (P.reads port.old))
        (counted (P.faults port.new) (P.reads port.new))
        × (result ≡ End.Finished → count ≡ length lines.now) }
    ensures later { W.faults sink.old ≤ W.faults sink.new }
    ensures failed { result ≡ End.SinkFailed → Rose (W.faults sink.old) (W.faults sink.new) }
    ensures calm { (result ≡ End.SinkFailed → ⊥) → W.faults sink.new ≡ W.faults sink.old }
{
    run_goes_on();
    texts_go_on();
    'lines: for line in lines {
        match run_line(alloc, server, names, line, sink, port) {
            End::Finished => {}
            end => return end,
        }
    }
    End::Finished
}
