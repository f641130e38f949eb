//! How a call of `play` ends, and what is said of it outside of the replies.
ghost use Rattle.std.specs.Prelude.{◌≡◌, ◌≤◌, OnOk, OnErr};
ghost use Rattle.std.specs.Io.KnownBytes.{Appends};
ghost use Rattle.pj_io.specs.Faults.{Rose};
ghost use Rattle.pj_io.specs.Transfers.{AppendsPart};
ghost use Rattle.pj_server.specs.Status.{bad_line_end, end_text};

use itoa::Buffer;
use pj_io::{GiveFault, Sink, write_all};

/// How a call ended, in the order in which the causes are looked for; out of memory may come at any of them.
#[derive(Clone, Copy, Debug, PartialEq, Eq)]
pub enum End {
    /// The arguments aren't taken.
    Usage,
    /// The source couldn't be read.
    SourceFailed,
    /// The script has too many bytes.
    TooLarge,
    /// The line of this number is the first bad one of the script, and the number was written.
    BadLine(u32),
    /// The sink couldn't be written.
    SinkFailed,
    /// The call itself was out of memory.
    NoMemory,
    /// The script was run, and all was written.
    Finished,
}

impl End {
    ghost use Rattle.pj_server.specs.Status.{status_of};

    /// The status that the program ends with.
    pub fn status(self) -> u8
        ensures { result ≡ status_of self }
    {
        match self {
            End::Finished => 0,
            End::Usage => 2,
            End::BadLine(_) => 3,
            End::SourceFailed => 4,
            End::SinkFailed => 5,
            End::NoMemory => 6,
            End::TooLarge => 7,
        }
    }
}

/// Writes a line that says what happened and where, or nothing where the script was run and all was written.
/// Takes no memory of its own, so that it can tell that too.
pub fn write_end<W: Sink>(sink: &mut W, end: End) -> Result<(), GiveFault>
    ensures all { OnOk result (Appends (W.taken sink.old) (W.taken sink.new) (end_text end)) }
    ensures part { OnErr result (AppendsPart (W.taken sink.old) (W.taken sink.new) (end_text end)) }

    ensures later { W.faults sink.old ≤ W.faults sink.new }
    ensures failed { result ≡ Err GiveFault.Failed → Rose (W.faults sink.old) (W.faults sink.new) }
    ensures calm { (result ≡ Err GiveFault.Failed → ⊥) → W.faults sink.new ≡ W.faults sink.old }
{
    match end {
        End::Finished => write_all(sink, b""),
        End::Usage => write_all(sink, b"projplay: the arguments aren't taken\n"),
        End::BadLine(line) => write_bad_line_end(sink, line),
        End::SourceFailed => write_all(sink, b"projplay: standard input could not be read\n"),
        End::SinkFailed => write_all(sink, b"projplay: standard output could not be written\n"),
        End::NoMemory => write_all(sink, b"projplay: out of memory\n"),
        End::TooLarge => write_all(
            sink,
            b"projplay: standard input has more than 16777216 bytes\n",
        ),
    }
}

/// Writes what is said of a bad line, in three writes.
fn write_bad_line_end<W: Sink>(sink: &mut W, line: u32) -> Result<(), GiveFault>
    ensures all { OnOk result (Appends (W.taken sink.old) (W.taken sink.new) (bad_line_end line)) }
    ensures part { OnErr result (AppendsPart (W.taken sink.old) (W.taken sink.new) (bad_line_end line)) }
    ensures later { W.faults sink.old ≤ W.faults sink.new }
    ensures failed { result ≡ Err GiveFault.Failed → Rose (W.faults sink.old) (W.faults sink.new) }
    ensures calm { (result ≡ Err GiveFault.Failed → ⊥) → W.faults sink.new ≡ W.faults sink.old }
{
    let mut number = Buffer::new();
    write_all(sink, b"projplay: line ")?;
    write_all(sink, number.format(line).as_bytes())?;
    write_all(sink, b" of standard input is bad\n")
}
