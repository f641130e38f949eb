//! Runs of whole scripts over sources and sinks in memory: the worked examples, small journals, and failing
//! calls. The ports of these runs never fail; those of ports.rt do.
ghost use Rattle.std.specs.Prelude.{◌≤◌};

use crate::arguments::arguments;
use pj_io::{MemorySink, MemorySource};
use pj_journal::{Entry, What};
use pj_port::MemoryPort;
use pj_server::{End, play, play_bytes, write_end};
use std::alloc::{AllocError, Global};
use std::test::Fail;

const COUNT: &[u8] = b"a: CREATE TABLE t (x UInt64) ENGINE = MergeTree ORDER BY x
a: INSERT INTO t VALUES (3), (1), (2)
a: SELECT count() FROM t
";

const COUNTED: &[u8] = b"1 a ok\n2 a ok\n3 a rows 1\n3\n";

const HISTORY: &[u8] = b"1 a ok\n2 a ok\n3 a rows 1\n3
history 4
1 a 1 created t
2 a 2 begun t
3 a 2 inserted t 1 3
4 a 3 looked t
";

/// How a script was run over a port that never fails: its status and its end, what was written, and how many
/// entries were kept.
#[derive(Drop)]
struct Run {
    status: u8,
    end: End,
    written: Vec<u8>,
    entries: usize,
    /// Whether the first entry is that of a table.
    creates: bool,
}

fn creates(entries: &[Entry]) -> bool {
    match entries.first() {
        Some(entry) => matches!(entry.what, What::Created(_)),
        None => false,
    }
}

fn played(
    alloc: Global,
    given: &[&str],
    script: &[u8],
    piece: usize,
    source_fails: u64,
    sink_fails: u64,
) -> Result<Run, AllocError>
    requires { 1 ≤ piece }
{
    let arguments = arguments(alloc, given)?;
    let bytes = Vec::from_slice(alloc, script)?;
    let mut source = MemorySource::new(bytes, piece, vec![in alloc; source_fails]?);
    let mut sink = MemorySink::new(piece, vec![in alloc; sink_fails]?);
    let mut port = MemoryPort::new(Vec::new(alloc));
    let ran = play(
        alloc,
        arguments.as_slice(),
        &mut source,
        &mut sink,
        &mut port,
    );
    Ok(Run {
        status: ran.status,
        end: ran.end,
        written: Vec::from_slice(alloc, sink.bytes())?,
        entries: ran.history.entries().len(),
        creates: creates(ran.history.entries()),
    })
}

#[test]
fn three_rows_are_counted_in_pieces_of_any_size(rt: HostRuntime) -> Result<(), Fail> {
    for piece in [1usize, 7, 4096] {
        let plain = played(rt.alloc(), &[], COUNT, piece, 0, 0)?;
        assert!(rt;
            plain.status == 0 && plain.entries == 4,
            "pieces of {piece}"
        );
        assert!(rt; plain.written.as_slice() == COUNTED, "pieces of {piece}");
        let told = played(rt.alloc(), &["--history"], COUNT, piece, 0, 0)?;
        assert!(rt;
            told.status == 0 && told.written.as_slice() == HISTORY,
            "pieces of {piece}"
        );
    }
    Ok(())
}

#[test]
fn each_failing_call_ends_the_run_with_its_status(rt: HostRuntime) -> Result<(), Fail> {
    // 123 bytes in pieces of 7 are 18 calls, and one more finds the end; 27 bytes in pieces of 7, line by
    // line, are 5 calls.
    for call in 1u64..=20 {
        let read = played(rt.alloc(), &[], COUNT, 7, call, 0)?;
        assert!(rt; (read.status == 4) == (call <= 19), "source, call {call}");
        assert!(rt; (read.status == 0) == (call > 19), "source, call {call}");
        assert!(rt;
            call > 19 || (read.entries == 0 && read.written.is_empty()),
            "source, call {call}"
        );
        let wrote = played(rt.alloc(), &[], COUNT, 7, 0, call)?;
        assert!(rt; (wrote.status == 5) == (call <= 4), "sink, call {call}");
        assert!(rt; (wrote.status == 0) == (call > 4), "sink, call {call}");
        assert!(rt;
            COUNTED.starts_with(wrote.written.as_slice()),
            "sink, call {call}"
        );
    }
    Ok(())
}

#[test]
fn each_status_has_its_cause(rt: HostRuntime) -> Result<(), Fail> {
    let alloc = rt.alloc();
    let unknown = played(alloc, &["--nope"], COUNT, 4096, 0, 0)?;
    assert!(rt; unknown.status == 2 && unknown.written.is_empty() && unknown.entries == 0);
    let nameless = played(alloc, &["--history"], b"SELECT 1", 4096, 0, 0)?;
    assert!(rt;
        nameless.status == 3 && nameless.written.as_slice() == b"bad script line 1\n".as_slice()
    );
    assert!(rt; nameless.end == End::BadLine(1));
    let empty = played(alloc, &[], b"", 4096, 0, 0)?;
    assert!(rt; empty.status == 0 && empty.written.is_empty() && empty.entries == 0);
    let first = played(alloc, &[], COUNT, 4096, 0, 1)?;
    assert!(rt; first.status == 5 && first.written.is_empty());
    assert!(rt; first.entries == 1 && first.creates);
    let marks = vec![in alloc; b'#'; 16_777_217]?;
    let large = played(alloc, &[], marks.as_slice(), 16_777_217, 0, 0)?;
    assert!(rt; large.status == 7 && large.written.is_empty() && large.entries == 0);
    Ok(())
}

#[test]
fn refusals_leave_the_table_as_it_was(rt: HostRuntime) -> Result<(), Fail> {
    let script = b"a: CREATE TABLE t (x UInt64) ENGINE = MergeTree ORDER BY x
a: INSERT INTO t VALUES (1, 2)
a: SELECT y FROM t
a: SELECT count() FROM t
a: CREATE TABLE t (y UInt64) ENGINE = MergeTree ORDER BY y
a: SELECT count() FROM u
a: SELECT sum(x) FROM u
a: SELECT count( FROM t
a: SELECT \"x\" FROM t
";
    let replies = b"1 a ok
2 a TYPE_MISMATCH
3 a UNKNOWN_IDENTIFIER y
4 a rows 1
0
5 a TABLE_ALREADY_EXISTS t
6 a UNKNOWN_TABLE u
7 a UNKNOWN_TABLE u
8 a SYNTAX_ERROR 14
9 a SYNTAX_ERROR 7
";
    let refused = played(rt.alloc(), &[], script, 4096, 0, 0)?;
    assert!(rt; refused.status == 0 && refused.entries == 9);
    assert!(rt; refused.written.as_slice() == replies.as_slice());
    Ok(())
}

#[test]
fn a_select_is_filtered_and_ordered_and_then_cut(rt: HostRuntime) -> Result<(), Fail> {
    let script = b"a: CREATE TABLE t (k UInt64, v UInt64) ENGINE = MergeTree ORDER BY k
a: INSERT INTO t VALUES (5, 7), (2, 8), (3, 7)
a: INSERT INTO t (v, k) VALUES (7, 1), (7, 9)
a: SELECT k FROM t WHERE v = 7 ORDER BY k LIMIT 3
";
    let replies = b"1 a ok\n2 a ok\n3 a ok\n4 a rows 3\n1\n3\n5\n";
    let selected = played(rt.alloc(), &[], script, 4096, 0, 0)?;
    assert!(rt; selected.status == 0 && selected.entries == 6);
    assert!(rt; selected.written.as_slice() == replies.as_slice());
    Ok(())
}

#[test]
fn a_full_journal_refuses_the_next_move(rt: HostRuntime) -> Result<(), Fail> {
    let replies = b"1 a ok\n2 a LIMIT HISTORY\n3 a LIMIT HISTORY\n";
    let mut sink = MemorySink::new(4096, Vec::new(rt.alloc()));
    let bytes = Vec::from_slice(rt.alloc(), COUNT)?;
    let mut port = MemoryPort::new(Vec::new(rt.alloc()));
    let whole = play_bytes(rt.alloc(), 2, false, bytes, &mut sink, &mut port);
    assert!(rt; whole.end == End::Finished && whole.history.entries().len() == 2);
    assert!(rt; sink.bytes() == replies.as_slice());
    Ok(())
}

#[test]
fn an_end_is_told_in_a_line(rt: HostRuntime) -> Result<(), Fail> {
    let told = [
        (End::Finished, ""),
        (End::Usage, "projplay: the arguments aren't taken\n"),
        (
            End::BadLine(1_048_577),
            "projplay: line 1048577 of standard input is bad\n",
        ),
        (
            End::SourceFailed,
            "projplay: standard input could not be read\n",
        ),
        (
            End::SinkFailed,
            "projplay: standard output could not be written\n",
        ),
        (End::NoMemory, "projplay: out of memory\n"),
        (
            End::TooLarge,
            "projplay: standard input has more than 16777216 bytes\n",
        ),
    ];
    for (end, line) in told {
        let mut errors = MemorySink::new(7, Vec::new(rt.alloc()));
        assert!(rt; write_end(&mut errors, end) == Ok(()), "{line}");
        assert!(rt; errors.bytes() == line.as_bytes(), "{line}");
    }
    Ok(())
}
