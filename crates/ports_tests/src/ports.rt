ghost use Rattle.std.specs.Prelude.{◌≡◌, ◌≤◌, length, IfOk, OnOk, IsTrue};
ghost use Rattle.pj_port.specs.Counts.{risen};

use pj_port::*;
use std::test::*;

/// Keeps these bytes and reads them whole. Where blobs are told, this shows that they are read as they are.
fn kept_and_read<P: Port>(port: &mut P, bytes: &[u8], into: &mut [u8]) -> Result<P::Blob, Fail>
    requires { length into.old ≡ length bytes.now }
    ensures size { IfOk result (λ blob. P.Blob.size blob ≡ length bytes.now) }
    ensures told { IsTrue P.Blob.tells → OnOk result (into.new ≡ bytes.now) }
{
    let blob = port.keep(bytes)?;
    port.read(&blob, 0, into)?;
    Ok(blob)
}

/// Fills `into` with the first bytes of a blob, each by a read of its own.
fn read_by_bytes<P: Port>(port: &mut P, blob: &P::Blob, into: &mut [u8]) -> Result<(), Failed>
    requires { length into.old ≤ P.Blob.size blob.now }
{
    'offsets: for at in 0..into.len() {
        port.read(blob, at as u64, &mut into[at..at + 1])?;
    }
    Ok(())
}

/// Fills `into` twice with the first bytes of a blob, which are two reads.
fn read_twice<P: Port>(port: &mut P, blob: &P::Blob, into: &mut [u8]) -> Result<(), Failed>
    requires { length into.old ≤ P.Blob.size blob.now }
    ensures { OnOk result (P.reads port.new ≡ risen (P.reads port.old) 2) }
{
    rises_add_up();
    port.read(blob, 0, into)?;
    port.read(blob, 0, into)
}

/// Which of four calls fail: a keep, a read, a forget, and another read.
fn failures<P: Port>(port: &mut P, blob: &P::Blob) -> [bool; 4]
    requires { 6 ≤ P.Blob.size blob.now }
{
    let mut into = [0u8; 2];
    [
        matches!(port.keep(b"gh"), Err(KeepFault::Failed)),
        port.read(blob, 2, &mut into).is_err(),
        port.forget(blob).is_err(),
        port.read(blob, 4, &mut into).is_err(),
    ]
}

#[test]
fn what_is_kept_is_read(rt: HostRuntime) -> Result<(), Fail> {
    let bytes = b"kept";
    let mut port = SurePort::new(rt.alloc());
    let mut whole = [0u8; 4];
    let blob = kept_and_read(&mut port, bytes, &mut whole)?;
    let mut single = [0u8; 4];
    read_by_bytes(&mut port, &blob, &mut single)?;
    assert_eq!(rt; [whole, single], [*bytes, *bytes]);
    Ok(())
}

#[test]
fn a_blob_may_be_empty(rt: HostRuntime) -> Result<(), Fail> {
    let mut port = MemoryPort::new(Vec::new(rt.alloc()));
    kept_and_read(&mut port, b"", &mut [])?;
    Ok(())
}

#[test]
fn a_port_reads_the_blobs_of_another(rt: HostRuntime) -> Result<(), Fail> {
    let blob = MemoryPort::new(Vec::new(rt.alloc())).keep(b"abcdef")?;
    let mut into = [0u8; 2];
    let mut other = MemoryPort::new(Vec::new(rt.alloc()));
    read_twice(&mut other, &blob, &mut into)?;
    assert_eq!(rt; into, *b"ab");
    Ok(())
}

#[test]
fn a_call_fails_where_its_number_is_listed(rt: HostRuntime) -> Result<(), Fail> {
    let blob = SurePort::new(rt.alloc()).keep(b"abcdef")?;
    for (fail, wanted) in [
        ([1, 1], [true, false, false, false]),
        ([2, 0], [false, true, false, false]),
        ([5, 3], [false, false, true, false]),
        ([4, 2], [false, true, false, true]),
        ([5, 6], [false, false, false, false]),
    ] {
        let mut port = MemoryPort::new(Vec::from_array(rt.alloc(), fail)?);
        assert_eq!(rt; failures(&mut port, &blob), wanted, "{fail:?}");
    }
    Ok(())
}

#[test]
fn a_read_that_failed_can_be_made_again(rt: HostRuntime) -> Result<(), Fail> {
    let blob = SurePort::new(rt.alloc()).keep(b"abcdef")?;
    let mut port = MemoryPort::new(vec![in rt.alloc(); 1]?);
    let mut into = [0u8; 2];
    assert!(rt; port.read(&blob, 3, &mut into).is_err());
    port.read(&blob, 3, &mut into)?;
    assert_eq!(rt; into, *b"de");
    Ok(())
}
