use pj_parse::types::{Act, Script, ScriptMode};
use pj_parse::{ScriptFault, script};
use std::alloc::Global;
use std::process::Abort;
use std::test::*;

/// Whether a script has these names, and lines with these numbers and bodies, all of the first name.
fn is_read(read: &Script, names: &[&[u8]], lines: &[(u32, &[u8])]) -> bool {
    if read.names.as_slice().len() != names.len() || read.lines.as_slice().len() != lines.len() {
        return false;
    }
    for (name, wanted) in read.names.as_slice().iter().zip(names) {
        if name.as_slice() != *wanted {
            return false;
        }
    }
    for (line, wanted) in read.lines.as_slice().iter().zip(lines) {
        let Act::Whole(body) = &line.act;
        if line.line != wanted.0 || line.name != 0 || body.as_slice() != wanted.1 {
            return false;
        }
    }
    true
}

/// Asserts that the bytes are such a script.
fn expect_lines(
    rt: &impl Abort,
    alloc: Global,
    bytes: &[u8],
    names: &[&[u8]],
    lines: &[(u32, &[u8])],
) {
    assert!(rt; bytes.len() < 1000);
    match script(alloc, bytes, ScriptMode::Play) {
        Ok(read) => assert!(rt; is_read(&read, names, lines), "other lines than {lines:?}"),
        Err(fault) => assert!(rt; false, "{fault} in place of {lines:?}"),
    }
}

/// Asserts that a line of this number is the first bad one.
fn expect_bad(rt: &impl Abort, alloc: Global, bytes: &[u8], line: u32) {
    assert!(rt; bytes.len() < 1000);
    match script(alloc, bytes, ScriptMode::Play) {
        Ok(_) => assert!(rt; false, "a script in place of bad line {line}"),
        Err(fault) => assert_eq!(rt; fault, ScriptFault::BadLine { line }),
    }
}

#[test]
fn lines_are_read_with_their_numbers(rt: HostRuntime) {
    let alloc = rt.alloc();
    let a = [b"a".as_slice()];
    let none: [&[u8]; 0] = [];
    let no_lines: [(u32, &[u8]); 0] = [];
    let longest = [b"abcdefghijklmnopqrstuvwxyz_01234".as_slice()];
    expect_lines(&rt, alloc, b"", &none, &no_lines);
    expect_lines(&rt, alloc, b"\n \t\r\n# a: b\n\t#\n", &none, &no_lines);
    expect_lines(
        &rt,
        alloc,
        b"a: SELECT 1",
        &a,
        &[(1, b"SELECT 1".as_slice())],
    );
    expect_lines(
        &rt,
        alloc,
        b"a:x\n\n#\n \r\ta\t : \r\ty z \t\r\na:w\n",
        &a,
        &[
            (1, b"x".as_slice()),
            (4, b"y z".as_slice()),
            (5, b"w".as_slice()),
        ],
    );
    expect_lines(
        &rt,
        alloc,
        b"abcdefghijklmnopqrstuvwxyz_01234:x",
        &longest,
        &[(1, b"x".as_slice())],
    );
    expect_lines(
        &rt,
        alloc,
        b"a: started x\na: finish x\na: starting\na:: #",
        &a,
        &[
            (1, b"started x".as_slice()),
            (2, b"finish x".as_slice()),
            (3, b"starting".as_slice()),
            (4, b": #".as_slice()),
        ],
    );
}

#[test]
fn the_first_bad_line_is_told(rt: HostRuntime) {
    let alloc = rt.alloc();
    expect_bad(&rt, alloc, b"SELECT 1", 1);
    expect_bad(&rt, alloc, b"#\n\na: x\nb: x\nnone", 4);
    expect_bad(&rt, alloc, b"abcdefghijklmnopqrstuvwxyz_012345: x", 1);
    for bad in [
        b"A: x".as_slice(),
        b"aB: x".as_slice(),
        b"1a: x".as_slice(),
        b"_: x".as_slice(),
        b": x".as_slice(),
        b"a b: x".as_slice(),
        b"a".as_slice(),
        b"a x".as_slice(),
        b"a:".as_slice(),
        b"a: \t\r".as_slice(),
        b"a: start".as_slice(),
        b"a: start x".as_slice(),
        b"a:start\tx".as_slice(),
        b"a: finish ".as_slice(),
    ] {
        expect_bad(&rt, alloc, bad, 1);
    }
}
