//! The top call of `projplay`: from the bytes of a script to the bytes of its replies and the history of its
//! run, with the parts of its tables in a port.
ghost use Rattle.std.specs.Prelude.{◌≡◌, ℕ, ◌<◌, ◌≤◌, ◌⊎◌, List, [], ◌∷◌, length};
ghost use Rattle.std.specs.Prelude.{map, Contains, Some, None, string_bytes, IfOk};
ghost use Rattle.std.specs.List.{AllByRecursion};
ghost use Rattle.std.specs.Io.KnownBytes.{Consumes};
ghost use Rattle.pj_io.specs.Faults.{Rose};
ghost use Rattle.pj_io.specs.Transfers.{TookTooMuch, TookAtMost};
ghost use Rattle.pj_script.specs.declared.types.ScriptMode.TheVariants.{Play};
ghost use Rattle.pj_script.specs.declared.types.Script.{Script};
ghost use Rattle.pj_script.specs.Lines.{IsScript, IsBadLine};
ghost use Rattle.pj_legal.specs.Statements.{statements};
ghost use Rattle.pj_legal.specs.Shares.{Rise};
ghost use Rattle.pj_legal.specs.Laws.{request_lines};
ghost use Rattle.pj_legal.specs.Texts.{history_text as text_of_history};
ghost use Rattle.pj_words.specs.Words.{wish_of};
ghost use Rattle.pj_server.specs.Played.{script_bytes, history_entries, DoesNothing};
ghost use Rattle.pj_server.specs.Played.{RunsSo, Reads, EndsSo, NeverRuns, bad_line_text};
ghost use Rattle.pj_server.specs.Ends.{TellsLine, ScriptEnds, FinishesSo};
ghost use Rattle.pj_server.specs.PortFaults.{counted};
ghost use Rattle.pj_server.specs.Status.{status_of};
ghost use Rattle.pj_server.specs.declared.ending.End.TheVariants as ends;

use crate::ending::End;
use crate::runs::{run_lines, write_text};
use crate::server::Server;
use itoa::Buffer;
use pj_io::{ReadFault, Sink, Source, read_all};
use pj_journal::Journal;
use pj_legal::{cut_runs, history_text, runs_are_legal};
use pj_port::Port;
use pj_script::types::{Script, ScriptMode};
use pj_script::{ScriptFault, lines_rise, no_script_with_a_bad_line, script};
use pj_value::NoMemory;
use pj_words::{WordsFault, wants_history};
use std::alloc::Global;

/// How many bytes a script may have.
const SCRIPT_BYTES: usize = 16_777_216;

/// How many entries the journal may have.
const HISTORY: u32 = 4_294_967_295;

/// How a call of `play` ended, and what it kept.
#[derive(Drop)]
pub struct Ran {
    /// The status that the program ends with.
    pub status: u8,
    /// How it ended: the cause of the status, with the number of a bad line.
    pub end: End,
    /// The one history that was kept.
    pub history: Journal,
}

/// How the run of some bytes ended, and what it kept.
#[derive(Drop)]
pub struct Played {
    /// How it ended.
    pub end: End,
    /// The one history that was kept.
    pub history: Journal,
}

/// Reads a script of at most 16,777,216 bytes from the source, runs its lines in their order on this thread,
/// and writes the reply of each as it comes, and, with the flag `--history`, the text of the history behind
/// them.
///
/// The arguments are the program's name and then nothing or that one flag, as `wants_history` reads them. The
/// statuses are 0 where the script was run and all was written, 2 for arguments that aren't taken, 4 where
/// the source failed, 7 for too many bytes, 3 for a bad line, 5 where the sink failed, and 6 where the call
/// itself was out of memory.
///
/// The rows of tables lie in the port: an INSERT keeps a blob for each column of its part, and a SELECT reads
/// the granules of the columns that it uses. A statement whose port fails is answered `STORE_FAULT`, and a
/// SELECT that is given bytes which are no granule `DAMAGED_PART`; then the script goes on. The port isn't told to
/// forget a blob: what it keeps for those of all parts stays behind the call, and so does what it keeps for those
/// that an INSERT had kept before it failed. A blob of a port in memory has its bytes itself, and they go with it.
pub fn play<R: Source, W: Sink, P: Port>(
    alloc: Global,
    arguments: &[String],
    source: &mut R,
    sink: &mut W,
    port: &mut P,
) -> Ran
    // Nothing but the arguments decides this, where there is memory to read them.
    ensures usage { result.status ≡ 2 → wish_of (map string_bytes arguments.now) ≡ None }
    ensures refused { wish_of (map string_bytes arguments.now) ≡ None
        → (result.status ≡ 2) ⊎ (result.status ≡ 6) }
    ensures unread { result.status ≡ 2 → Consumes (R.left source.old) (R.left source.new) [] }

    ensures source_failed { result.status ≡ 4 → Rose (R.faults source.old) (R.faults source.new) }
    ensures too_large { result.status ≡ 7 → TookTooMuch script_bytes (R.left source.old) (R.left source.new) }
    ensures not_too_large { (result.status ≡ 7 → ⊥)
        → TookAtMost script_bytes (R.left source.old) (R.left source.new) }

    // The source's bytes have a bad line, and the first such was told, whose number the end has.
    ensures bad_line { result.status ≡ 3
        → (line : ℕ) × (result.end ≡ End.BadLine line)
        × Reads (ends.BadLine line) P.Blob.tells (wish_of (map string_bytes arguments.now)) (R.left source.old)
        (R.left source.new) result.history.entries (W.taken sink.old) (W.taken sink.new)
        (counted (P.faults port.old) (P.reads port.old))
        (counted (P.faults port.new) (P.reads port.new)) }

    // The headline: the source's bytes spell a script, the history is legal for it with these replies, and
    // their text was written.
    ensures done { result.status ≡ 0
        → Reads ends.Finished P.Blob.tells (wish_of (map string_bytes arguments.now)) (R.left source.old)
        (R.left source.new) result.history.entries (W.taken sink.old) (W.taken sink.new)
        (counted (P.faults port.old) (P.reads port.old))
        (counted (P.faults port.new) (P.reads port.new)) }

    // The history is legal for the script cut after some lines, and a proper prefix of the text of that was
    // written; or a proper prefix of the text of a bad line was.
    ensures sink_failed { result.status ≡ 5 → Rose (W.faults sink.old) (W.faults sink.new) }
    ensures stopped { result.status ≡ 5
        → Reads ends.SinkFailed P.Blob.tells (wish_of (map string_bytes arguments.now)) (R.left source.old)
        (R.left source.new) result.history.entries (W.taken sink.old) (W.taken sink.new)
        (counted (P.faults port.old) (P.reads port.old))
        (counted (P.faults port.new) (P.reads port.new)) }
    ensures starved { result.status ≡ 6
        → EndsSo ends.NoMemory P.Blob.tells (wish_of (map string_bytes arguments.now)) (R.left source.old)
        (R.left source.new) result.history.entries (W.taken sink.old) (W.taken sink.new)
        (counted (P.faults port.old) (P.reads port.old))
        (counted (P.faults port.new) (P.reads port.new)) }

    // Out of memory doesn't stand in for a source or a sink that failed.
    ensures source_blamed { R.faults source.old < R.faults source.new → result.status ≡ 4 }
    ensures sink_blamed { W.faults sink.old < W.faults sink.new → result.status ≡ 5 }

    // Nothing was run, and but for a bad line nothing was written.
    ensures empty { (result.status ≡ 2) ⊎ (result.status ≡ 3) ⊎ (result.status ≡ 4) ⊎ (result.status ≡ 7)
        → result.history.entries ≡ [] }
    ensures quiet { (result.status ≡ 2) ⊎ (result.status ≡ 4) ⊎ (result.status ≡ 7)
        → DoesNothing result.history.entries (W.taken sink.old) (W.taken sink.new) }

    // A script of the grammar is run to its end, unless it is out of memory or the source or the sink fails.
    ensures complete { (bytes : List ℕ) (script : Script) → R.left source.old ≡ Some bytes
        → length bytes ≤ script_bytes
        → IsScript Play bytes script
        → (wish_of (map string_bytes arguments.now) ≡ None → ⊥)
        → (Rose (R.faults source.old) (R.faults source.new) → ⊥)
        → (Rose (W.faults sink.old) (W.faults sink.new) → ⊥)
        → (result.status ≡ 0) ⊎ (result.status ≡ 6) }

    // And where the bytes have a bad line, that is told, with the same exceptions.
    ensures bad_line_told { (bytes : List ℕ) (line : ℕ) → R.left source.old ≡ Some bytes
        → length bytes ≤ script_bytes
        → IsBadLine Play bytes line
        → (wish_of (map string_bytes arguments.now) ≡ None → ⊥)
        → (Rose (R.faults source.old) (R.faults source.new) → ⊥)
        → (Rose (W.faults sink.old) (W.faults sink.new) → ⊥)
        → (result.status ≡ 3) ⊎ (result.status ≡ 6) }

    ensures end { result.status ≡ status_of result.end }
    ensures statuses { Contains (0 ∷ 2 ∷ 3 ∷ 4 ∷ 5 ∷ 6 ∷ 7 ∷ []) result.status }
    ensures limit { result.history.limit ≡ history_entries }
    ensures source_later { R.faults source.old ≤ R.faults source.new }
    ensures sink_later { W.faults sink.old ≤ W.faults sink.new }

    // The port's faults never fall, and where nothing was run the port isn't called.
    ensures port_later { P.faults port.old ≤ P.faults port.new }
    ensures uncalled { (result.status ≡ 2) ⊎ (result.status ≡ 3) ⊎ (result.status ≡ 4) ⊎ (result.status ≡ 7)
        → port.new ≡ port.old }
{
    no_script_with_a_bad_line();
    let Played { end, history } = play_arguments(alloc, arguments, source, sink, port);
    Ran {
        status: end.status(),
        end,
        history,
    }
}

fn play_arguments<R: Source, W: Sink, P: Port>(
    alloc: Global,
    arguments: &[String],
    source: &mut R,
    sink: &mut W,
    port: &mut P,
) -> Played
    ensures ends { EndsSo result.end P.Blob.tells (wish_of (map string_bytes arguments.now)) (R.left source.old)
        (R.left source.new) result.history.entries (W.taken sink.old) (W.taken sink.new)
        (counted (P.faults port.old) (P.reads port.old))
        (counted (P.faults port.new) (P.reads port.new)) }
    ensures source_failed { result.end ≡ End.SourceFailed → Rose (R.faults source.old) (R.faults source.new) }
    ensures source_calm { (result.end ≡ End.SourceFailed → ⊥)
        → R.faults source.new ≡ R.faults source.old }
    ensures sink_failed { result.end ≡ End.SinkFailed → Rose (W.faults sink.old) (W.faults sink.new) }
    ensures sink_calm { (result.end ≡ End.SinkFailed → ⊥) → W.faults sink.new ≡ W.faults sink.old }
    ensures source_later { R.faults source.old ≤ R.faults source.new }
    ensures sink_later { W.faults sink.old ≤ W.faults sink.new }
    ensures limit { result.history.limit ≡ HISTORY }
    ensures port_later { P.faults port.old ≤ P.faults port.new }
    ensures uncalled { NeverRuns result.end → port.new ≡ port.old }
{
    let wanted = match wants_history(alloc, arguments) {
        Ok(wanted) => wanted,
        Err(WordsFault::Usage) => return nothing(alloc, End::Usage),
        Err(WordsFault::NoMemory) => return nothing(alloc, End::NoMemory),
    };
    match read_all(alloc, source, SCRIPT_BYTES) {
        Ok(bytes) => play_bytes(alloc, HISTORY, wanted, bytes, sink, port),
        Err(ReadFault::Failed) => nothing(alloc, End::SourceFailed),
        Err(ReadFault::TooLarge) => nothing(alloc, End::TooLarge),
        Err(ReadFault::NoMemory) => nothing(alloc, End::NoMemory),
    }
}

fn nothing(alloc: Global, end: End) -> Played
    ensures end { result.end ≡ end }
    ensures history { result.history.entries ≡ [] }
    ensures limit { result.history.limit ≡ HISTORY }
{
    Played {
        end,
        history: Journal::new(alloc, HISTORY),
    }
}

/// Runs the script that the bytes spell, with a journal of at most `limit` entries, or writes its bad line. The
/// port is for what it is in `play`, which calls this with its own limit and with the bytes that it read.
#[tactic(auto, using(crate::proofs::PlayLemmas::runs_bad_line))]
pub fn play_bytes<W: Sink, P: Port>(
    alloc: Global,
    limit: u32,
    wanted: bool,
    bytes: Vec<u8>,
    sink: &mut W,
    port: &mut P,
) -> Played
    requires { length bytes.items ≤ script_bytes }
    ensures runs { RunsSo result.end P.Blob.tells limit wanted bytes.items result.history.entries
        (W.taken sink.old) (W.taken sink.new) (counted (P.faults port.old) (P.reads port.old))
        (counted (P.faults port.new) (P.reads port.new)) }
    ensures sink_failed { result.end ≡ End.SinkFailed → Rose (W.faults sink.old) (W.faults sink.new) }
    ensures sink_calm { (result.end ≡ End.SinkFailed → ⊥) → W.faults sink.new ≡ W.faults sink.old }
    ensures sink_later { W.faults sink.old ≤ W.faults sink.new }
    ensures limit { result.history.limit ≡ limit }
    ensures port_later { P.faults port.old ≤ P.faults port.new }
    ensures uncalled { NeverRuns result.end → port.new ≡ port.old }
{
    match script(alloc, bytes.as_slice(), ScriptMode::Play) {
        Ok(script) => {
            drop(bytes);
            lines_rise();
            play_script(alloc, limit, wanted, &script, sink, port)
        }
        Err(ScriptFault::BadLine { line }) => Played {
            end: write_bad_line(alloc, line, sink),
            history: Journal::new(alloc, limit),
        },
        Err(ScriptFault::NoMemory) => Played {
            end: End::NoMemory,
            history: Journal::new(alloc, limit),
        },
    }
}

/// Writes that a line is bad.
fn write_bad_line<W: Sink>(alloc: Global, line: u32, sink: &mut W) -> End
    ensures end { TellsLine result line (W.taken sink.old) (W.taken sink.new) }
    ensures failed { result ≡ End.SinkFailed → Rose (W.faults sink.old) (W.faults sink.new) }
    ensures calm { (result ≡ End.SinkFailed → ⊥) → W.faults sink.new ≡ W.faults sink.old }
    ensures later { W.faults sink.old ≤ W.faults sink.new }
{
    match bad_line(alloc, line) {
        Ok(text) => match write_text(sink, text.as_slice()) {
            End::Finished => End::BadLine(line),
            end => end,
        },
        Err(NoMemory) => End::NoMemory,
    }
}

/// The text for a bad line.
fn bad_line(alloc: Global, line: u32) -> Result<Vec<u8>, NoMemory>
    ensures { IfOk result (λ text. text.items ≡ bad_line_text line) }
{
    let mut text = Vec::from_slice(alloc, b"bad script line ")?;
    let mut buffer = Buffer::new();
    text.extend_from_slice(buffer.format(line).as_bytes())?;
    text.push(b'\n')?;
    Ok(text)
}

/// Runs a script with a journal of at most `limit` entries, and writes its replies and, where it is wanted,
/// the history's text.
fn play_script<W: Sink, P: Port>(
    alloc: Global,
    limit: u32,
    wanted: bool,
    script: &Script,
    sink: &mut W,
    port: &mut P,
) -> Played
    requires rise { Rise 0 (request_lines (statements script.now)) }
    requires named { AllByRecursion (λ line. line.name < length script.now.names) script.now.lines }
    ensures ends { ScriptEnds result.end P.Blob.tells limit wanted script.now result.history.entries
        (W.taken sink.old) (W.taken sink.new) (counted (P.faults port.old) (P.reads port.old))
        (counted (P.faults port.new) (P.reads port.new)) }
    ensures sink_failed { result.end ≡ End.SinkFailed → Rose (W.faults sink.old) (W.faults sink.new) }
    ensures sink_calm { (result.end ≡ End.SinkFailed → ⊥) → W.faults sink.new ≡ W.faults sink.old }
    ensures sink_later { W.faults sink.old ≤ W.faults sink.new }
    ensures limit { result.history.limit ≡ limit }
    ensures port_later { P.faults port.old ≤ P.faults port.new }
{
    let mut server = Server::<P>::new(alloc, limit);
    let lines = run_lines(
        alloc,
        &mut server,
        script.names.as_slice(),
        script.lines.as_slice(),
        sink,
        port,
    );
    runs_are_legal();
    cut_runs();
    let end = finish(alloc, lines, wanted, script, server.journal(), sink);
    Played {
        end,
        history: server.into_journal(),
    }
}

/// Writes the history's text, where the lines ended well and it is wanted.
fn finish<W: Sink>(
    alloc: Global,
    lines: End,
    wanted: bool,
    script: &Script,
    journal: &Journal,
    sink: &mut W,
) -> End
    ensures end { FinishesSo lines result wanted (W.taken sink.old) (W.taken sink.new)
        (text_of_history script.now.names journal.now.entries) }
    ensures failed { result ≡ End.SinkFailed
        → (lines ≡ End.SinkFailed) ⊎ Rose (W.faults sink.old) (W.faults sink.new) }
    ensures kept { lines ≡ End.SinkFailed → result ≡ End.SinkFailed }
    ensures calm { (result ≡ End.SinkFailed → ⊥) → W.faults sink.new ≡ W.faults sink.old }
    ensures later { W.faults sink.old ≤ W.faults sink.new }
{
    match lines {
        End::Finished if wanted => match history_text(alloc, script, journal) {
            Ok(text) => write_text(sink, text.as_slice()),
            Err(NoMemory) => End::NoMemory,
        },
        end => end,
    }
}
