ghost use Rattle.std.specs.Prelude.{◌≤◌};

use pj_io::*;
use std::alloc::{AllocError, Global};
use std::io::{Cursor, ErrorKind, Read, Write};
use std::test::*;

fn counted(alloc: Global, len: u32) -> Result<Vec<u8>, AllocError> {
    (0..len).map(|i| (i % 251) as u8).collect(alloc)
}

/// Whether a source gives these bytes, and then ends.
fn gives<R: Source>(alloc: Global, source: &mut R, bytes: &[u8]) -> Result<bool, ReadFault> {
    let read = read_all(alloc, source, bytes.len())?;
    Ok(read.as_slice() == bytes)
}

/// Whether a source in memory gives so many bytes in pieces of this length.
fn source_gives(alloc: Global, len: u32, piece: usize) -> Result<bool, ReadFault>
    requires { 1 ≤ piece }
{
    let bytes = counted(alloc, len)?;
    let mut source = MemorySource::new(bytes.clone()?, piece, Vec::new(alloc));
    gives(alloc, &mut source, bytes.as_slice())
}

/// Whether a sink in memory takes these bytes in pieces of this length.
fn sink_takes(alloc: Global, bytes: &[u8], piece: usize) -> Result<bool, GiveFault>
    requires { 1 ≤ piece }
{
    let mut sink = MemorySink::new(piece, Vec::new(alloc));
    write_all(&mut sink, bytes)?;
    Ok(sink.bytes() == bytes)
}

#[test]
fn pieces_of_any_size_are_read_as_all_the_bytes(rt: HostRuntime) -> Result<(), Fail> {
    for piece in [1usize, 7, 4096] {
        assert!(rt;
            source_gives(rt.alloc(), 40_000, piece)?,
            "pieces of {piece}"
        );
    }
    Ok(())
}

#[test]
fn all_the_bytes_are_written_in_pieces_of_any_size(rt: HostRuntime) -> Result<(), Fail> {
    let bytes = counted(rt.alloc(), 40_000)?;
    for piece in [1usize, 7, 4096] {
        assert!(rt;
            sink_takes(rt.alloc(), bytes.as_slice(), piece)?,
            "pieces of {piece}"
        );
    }
    Ok(())
}

#[test]
fn one_byte_past_the_limit_is_too_large(rt: HostRuntime) -> Result<(), Fail> {
    for (len, limit, fits) in [
        (0, 0, true),
        (1, 0, false),
        (16_384, 16_384, true),
        (16_385, 16_384, false),
        (40_000, 39_999, false),
        (40_000, usize::MAX, true),
    ] {
        let mut source = SureSource::new(counted(rt.alloc(), len)?);
        match read_all(rt.alloc(), &mut source, limit) {
            Ok(read) => assert!(rt; fits && read.len() == len as usize, "{len} within {limit}"),
            Err(fault) => assert!(rt;
                !fits && fault == ReadFault::TooLarge,
                "{len} within {limit}"
            ),
        }
    }
    Ok(())
}

/// The list of one call that fails.
fn failing(alloc: Global, call: u64) -> Result<Vec<u64>, AllocError> {
    Ok(vec![in alloc; call]?)
}

/// How a source of 20 bytes in pieces of 7 is read where this call fails.
fn read_failing(alloc: Global, call: u64) -> Result<Vec<u8>, ReadFault> {
    let bytes = counted(alloc, 20)?;
    let mut source = MemorySource::new(bytes, 7, failing(alloc, call)?);
    read_all(alloc, &mut source, 20)
}

/// Whether a sink takes so many of 20 bytes in pieces of 7 where this call fails, and tells whether these are all.
fn takes_failing(alloc: Global, call: u64, taken: usize) -> Result<bool, AllocError> {
    let bytes = counted(alloc, 20)?;
    let mut sink = MemorySink::new(7, failing(alloc, call)?);
    let whole = write_all(&mut sink, bytes.as_slice()).is_ok();
    Ok(sink.bytes().len() == taken && whole == (taken == 20))
}

#[test]
fn a_call_fails_where_its_number_is_listed(rt: HostRuntime) -> Result<(), Fail> {
    // 7, 7 and 6 bytes, and a source's fourth call finds the end.
    for (call, taken) in [(1u64, 0), (2, 7), (3, 14), (4, 20), (5, 20), (6, 20)] {
        match read_failing(rt.alloc(), call) {
            Ok(_) => assert!(rt; call > 4, "call {call}"),
            Err(fault) => assert!(rt; call <= 4 && fault == ReadFault::Failed, "call {call}"),
        }
        assert!(rt; takes_failing(rt.alloc(), call, taken)?, "call {call}");
    }
    Ok(())
}

/// The bytes that are left of 20 where the second call for 7 of them failed.
fn left_after_a_fault(alloc: Global) -> Result<Vec<u8>, ReadFault> {
    let bytes = counted(alloc, 20)?;
    let mut source = MemorySource::new(bytes, 7, failing(alloc, 2)?);
    match read_all(alloc, &mut source, 20) {
        Ok(all) => Ok(all),
        Err(_) => read_all(alloc, &mut source, 20),
    }
}

#[test]
fn what_is_left_after_a_fault_can_be_read(rt: HostRuntime) -> Result<(), Fail> {
    let bytes = counted(rt.alloc(), 20)?;
    let rest = left_after_a_fault(rt.alloc())?;
    assert!(rt; rest.len() == 13 && bytes.ends_with(&rest));
    Ok(())
}

/// Whether a reader over a slice, and one over a cursor, give all of so many bytes.
fn readers_give(alloc: Global, len: u32) -> Result<bool, ReadFault> {
    let bytes = counted(alloc, len)?;
    let mut slice = ReaderSource::new(bytes.as_slice());
    let mut cursor = ReaderSource::new(Cursor::new(bytes.clone()?));
    Ok(gives(alloc, &mut slice, bytes.as_slice())? && gives(alloc, &mut cursor, bytes.as_slice())?)
}

/// Whether a writer takes all of these bytes.
fn writer_takes(alloc: Global, bytes: &[u8]) -> Result<bool, GiveFault> {
    let mut sink = WriterSink::new(Vec::new(alloc));
    write_all(&mut sink, bytes)?;
    Ok(sink.into_inner().as_slice() == bytes)
}

/// Whether a sink that never fails takes all of these bytes.
fn sure_takes(alloc: Global, bytes: &[u8]) -> Result<bool, GiveFault> {
    let mut sink = SureSink::new(alloc);
    write_all(&mut sink, bytes)?;
    Ok(sink.bytes() == bytes)
}

#[test]
fn readers_and_writers_serve(rt: HostRuntime) -> Result<(), Fail> {
    let bytes = counted(rt.alloc(), 20_000)?;
    assert!(rt; readers_give(rt.alloc(), 20_000)?);
    assert!(rt; writer_takes(rt.alloc(), bytes.as_slice())?);
    assert!(rt; sure_takes(rt.alloc(), bytes.as_slice())?);
    Ok(())
}

// Answers in turn: a signal, a byte, another error, the end.
#[derive(Drop)]
struct Unsteady {
    calls: u8,
}

impl Unsteady {
    fn answer(&mut self) -> std::io::Result<usize> {
        self.calls = self.calls.saturating_add(1);
        match self.calls {
            1 => Err(ErrorKind::Interrupted.into()),
            2 => Ok(1),
            3 => Err(ErrorKind::StorageFull.into()),
            _ => Ok(0),
        }
    }
}

impl Read for Unsteady {
    fn read(&mut self, buf: &mut [u8]) -> std::io::Result<usize> {
        Ok(self.answer()?.min(buf.len()))
    }
}

impl Write for Unsteady {
    fn write(&mut self, buf: &[u8]) -> std::io::Result<usize> {
        Ok(self.answer()?.min(buf.len()))
    }

    fn flush(&mut self) -> std::io::Result<()> {
        Ok(())
    }
}

/// Whether a reader is asked again after a signal, gives a byte, fails, and ends.
fn source_answers_in_turn() -> bool {
    let mut source = ReaderSource::new(Unsteady { calls: 0 });
    let mut into = [9u8; 4];
    let byte = source.take(&mut into) == Ok(1);
    let error = source.take(&mut into) == Err(Failed);
    let end = source.take(&mut into) == Ok(0);
    byte && error && end
}

/// Whether a writer is asked again after a signal, takes a byte, and fails, also where it takes none.
fn sink_answers_in_turn() -> bool {
    let mut sink = WriterSink::new(Unsteady { calls: 0 });
    let byte = sink.give(b"ab") == Ok(1);
    let error = sink.give(b"ab") == Err(GiveFault::Failed);
    let none = sink.give(b"ab") == Err(GiveFault::Failed);
    let nothing = sink.give(b"") == Ok(0);
    byte && error && none && nothing
}

#[test]
fn a_signal_is_no_fault_and_an_error_is_one(rt: HostRuntime) {
    assert!(rt; source_answers_in_turn());
    assert!(rt; sink_answers_in_turn());
}
