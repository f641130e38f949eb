//! Runs of whole scripts over ports whose calls fail, and over one whose blobs don't tell their bytes.
use crate::arguments::arguments;
use crate::blind::{BlindPort, Change};
use crate::tallies::{Asked, Brings, Does, Story};
use pj_io::{MemorySink, MemorySource};
use pj_port::{MemoryPort, Port};
use pj_server::play;
use std::alloc::{AllocError, Global};
use std::test::Fail;

/// How a script was run: its status, what was written, and how many entries were kept.
#[derive(Drop)]
struct Run {
    status: u8,
    written: Vec<u8>,
    entries: usize,
}

fn played_over<P: Port>(
    alloc: Global,
    given: &[&str],
    script: &[u8],
    port: &mut P,
) -> Result<Run, AllocError> {
    let arguments = arguments(alloc, given)?;
    let bytes = Vec::from_slice(alloc, script)?;
    let mut source = MemorySource::new(bytes, 4096, Vec::new(alloc));
    let mut sink = MemorySink::new(4096, Vec::new(alloc));
    let ran = play(alloc, arguments.as_slice(), &mut source, &mut sink, port);
    Ok(Run {
        status: ran.status,
        written: Vec::from_slice(alloc, sink.bytes())?,
        entries: ran.history.entries().len(),
    })
}

/// The run over a port one of whose calls fails, by its number from 1, or none for 0.
fn failing(alloc: Global, given: &[&str], script: &[u8], fails: u64) -> Result<Run, AllocError> {
    let mut port = MemoryPort::new(vec![in alloc; fails]?);
    played_over(alloc, given, script, &mut port)
}

/// The run over a port whose blobs don't tell their bytes, and one of whose reads is changed.
fn blind(alloc: Global, script: &[u8], change: Change) -> Result<Run, AllocError> {
    let mut port = BlindPort::new(alloc, change);
    played_over(alloc, &[], script, &mut port)
}

#[test]
fn a_read_that_fails_refuses_its_select_alone(rt: HostRuntime) -> Result<(), Fail> {
    let script = b"a: CREATE TABLE t (x UInt64) ENGINE = MergeTree ORDER BY x
a: INSERT INTO t VALUES (7)
a: SELECT x FROM t
a: SELECT x FROM t
a: SELECT x FROM t
";
    let replies = b"1 a ok\n2 a ok\n3 a rows 1\n7\n4 a STORE_FAULT\n5 a rows 1\n7\n";
    let worked = failing(rt.alloc(), &[], script, 3)?;
    assert!(rt; worked.status == 0 && worked.entries == 6);
    assert!(rt; worked.written.as_slice() == replies.as_slice());
    Ok(())
}

#[test]
fn an_insert_that_is_not_kept_leaves_no_part_and_draws_no_block(
    rt: HostRuntime,
) -> Result<(), Fail> {
    let script = b"a: CREATE TABLE t (x UInt64, y UInt64) ENGINE = MergeTree ORDER BY x
a: INSERT INTO t VALUES (1, 2)
a: SELECT y FROM t
a: INSERT INTO t VALUES (3, 4)
a: SELECT y FROM t
";
    let written = b"1 a ok
2 a STORE_FAULT
3 a rows 0
4 a ok
5 a rows 1
4
history 6
1 a 1 created t
2 a 2 begun t
3 a 3 looked t
4 a 4 begun t
5 a 4 inserted t 1 1
6 a 5 looked t
";
    for fails in [1u64, 2] {
        let refused = failing(rt.alloc(), &["--history"], script, fails)?;
        assert!(rt; refused.status == 0 && refused.entries == 6, "call {fails}");
        assert!(rt;
            refused.written.as_slice() == written.as_slice(),
            "call {fails}"
        );
    }
    Ok(())
}

/// Three numbers a row, in one granule a part.
const VISITS: Story<'static> = Story {
    columns: 3,
    statements: &[
        (
            "CREATE TABLE log (ts UInt64, status UInt64, bytes UInt64) ENGINE = MergeTree ORDER BY ts",
            Does::Creates,
        ),
        ("SELECT sum(bytes) FROM log", Does::Asks(Asked::Sum, 1)),
        (
            "INSERT INTO log VALUES (30, 404, 512), (10, 200, 7)",
            Does::Inserts(Brings {
                rows: 2,
                granules: 1,
                sum: 519,
                listed: "\n10\n30",
            }),
        ),
        ("SELECT sum(bytes) FROM log", Does::Asks(Asked::Sum, 1)),
        (
            "INSERT INTO log (bytes, ts) VALUES (9, 40)",
            Does::Inserts(Brings {
                rows: 1,
                granules: 1,
                sum: 9,
                listed: "\n40",
            }),
        ),
        ("SELECT ts FROM log ORDER BY ts", Does::Asks(Asked::List, 1)),
        (
            "INSERT INTO log VALUES (70, 301, 3), (50, 500, 1), (60, 200, 2)",
            Does::Inserts(Brings {
                rows: 3,
                granules: 1,
                sum: 6,
                listed: "\n50\n60\n70",
            }),
        ),
        ("SELECT count() FROM log", Does::Asks(Asked::Count, 0)),
        (
            "SELECT sum(bytes) FROM log WHERE status < 501",
            Does::Asks(Asked::Sum, 2),
        ),
        (
            "SELECT count() FROM log WHERE ts + status > 9 AND bytes > 0",
            Does::Asks(Asked::Count, 3),
        ),
        (
            "SELECT ts FROM log ORDER BY ts LIMIT 6",
            Does::Asks(Asked::List, 1),
        ),
    ],
};

/// A text and a number a row, in granules of two rows.
const PAGES: Story<'static> = Story {
    columns: 2,
    statements: &[
        (
            "CREATE TABLE page (path String, hits UInt64) ENGINE = MergeTree ORDER BY path \
             SETTINGS index_granularity = 2",
            Does::Creates,
        ),
        (
            "INSERT INTO page VALUES ('/b', 3), ('/a', 4), ('/a/c', 5)",
            Does::Inserts(Brings {
                rows: 3,
                granules: 2,
                sum: 12,
                listed: "\n/a\n/a/c\n/b",
            }),
        ),
        (
            "SELECT path FROM page ORDER BY path",
            Does::Asks(Asked::List, 1),
        ),
        (
            "INSERT INTO page VALUES ('/d', 1)",
            Does::Inserts(Brings {
                rows: 1,
                granules: 1,
                sum: 1,
                listed: "\n/d",
            }),
        ),
        ("SELECT count() FROM page", Does::Asks(Asked::Count, 0)),
        (
            "SELECT sum(hits) FROM page WHERE path >= '/'",
            Does::Asks(Asked::Sum, 2),
        ),
        (
            "INSERT INTO page VALUES ('/o''brien', 20), ('/n', 10)",
            Does::Inserts(Brings {
                rows: 2,
                granules: 1,
                sum: 30,
                listed: "\n/n\n/o'brien",
            }),
        ),
        (
            "SELECT path FROM page WHERE NOT path = '' ORDER BY path",
            Does::Asks(Asked::List, 1),
        ),
        ("SELECT sum(hits) FROM page", Does::Asks(Asked::Sum, 1)),
        (
            "SELECT count() FROM page WHERE path >= '/' AND hits > 0",
            Does::Asks(Asked::Count, 2),
        ),
    ],
};

#[test]
fn each_failing_call_of_the_port_refuses_one_statement(rt: HostRuntime) -> Result<(), Fail> {
    // Each of the scripts makes 30 calls. No call has the number 0.
    for story in [VISITS, PAGES] {
        let script = story.script(rt.alloc())?;
        for fails in 0u64..=31 {
            let wanted = story.tally(rt.alloc(), fails)?;
            let refused = u64::from(1 <= fails && fails <= 30);
            assert!(rt; wanted.refused == refused, "call {fails}");
            let ran = failing(rt.alloc(), &[], script.as_slice(), fails)?;
            assert!(rt; ran.status == 0, "call {fails}");
            assert!(rt;
                ran.written.as_slice() == wanted.replies.as_bytes(),
                "call {fails}"
            );
        }
    }
    Ok(())
}

#[test]
fn a_byte_that_was_not_kept_is_told_or_not_seen(rt: HostRuntime) -> Result<(), Fail> {
    let script = b"a: CREATE TABLE t (x UInt64) ENGINE = MergeTree ORDER BY x
a: INSERT INTO t VALUES (7)
a: SELECT x FROM t
a: SELECT x FROM t
";
    // The granule has a tag, four bytes for the number of values, and eight bytes for the value.
    for (at, first) in [
        (0usize, "DAMAGED_PART all_1_1_0 base 0 0 0"),
        (1, "DAMAGED_PART all_1_1_0 base 0 0 1"),
        (5, "rows 1\n6"),
        (13, "rows 1\n7"),
    ] {
        let change = Change {
            read: 1,
            at,
            xor: 1,
        };
        let ran = blind(rt.alloc(), script, change)?;
        let replies = format!(in rt.alloc(); "1 a ok\n2 a ok\n3 a {first}\n4 a rows 1\n7\n")?;
        assert!(rt; ran.status == 0 && ran.entries == 5, "byte {at}");
        assert!(rt; ran.written.as_slice() == replies.as_bytes(), "byte {at}");
    }
    Ok(())
}

#[test]
fn damage_is_told_with_its_part_column_and_granule(rt: HostRuntime) -> Result<(), Fail> {
    let script =
        b"a: CREATE TABLE t (x UInt64, y String) ENGINE = MergeTree ORDER BY x SETTINGS index_granularity = 2
a: INSERT INTO t VALUES (1, 'a')
a: INSERT INTO t VALUES (2, 'b'), (3, 'c'), (4, 'd')
a: SELECT y FROM t ORDER BY y
a: SELECT y FROM t WHERE x > 2 ORDER BY y
";
    // The first SELECT reads one granule of the first part and two of the second, the other twice as many.
    for (read, replies) in [
        (
            1u64,
            "4 a DAMAGED_PART all_1_1_0 base 1 0 0\n5 a rows 2\nc\nd\n",
        ),
        (
            3,
            "4 a DAMAGED_PART all_2_2_0 base 1 1 0\n5 a rows 2\nc\nd\n",
        ),
        (
            4,
            "4 a rows 4\na\nb\nc\nd\n5 a DAMAGED_PART all_1_1_0 base 0 0 0\n",
        ),
        (
            9,
            "4 a rows 4\na\nb\nc\nd\n5 a DAMAGED_PART all_2_2_0 base 1 1 0\n",
        ),
        (10, "4 a rows 4\na\nb\nc\nd\n5 a rows 2\nc\nd\n"),
    ] {
        let change = Change {
            read,
            at: 0,
            xor: 1,
        };
        let ran = blind(rt.alloc(), script, change)?;
        assert!(rt; ran.status == 0, "read {read}");
        assert!(rt;
            ran.written.as_slice().ends_with(replies.as_bytes()),
            "read {read}"
        );
    }
    Ok(())
}
