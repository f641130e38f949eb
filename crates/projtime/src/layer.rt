//! A layer that is timed.
use std::io;
use std::io::{Eprint, Print};
use std::time::{CpuClock, Duration};

/// What a layer did, and how long it took for that.
#[derive(Debug, Drop)]
pub struct Layer {
    name: &'static str,
    /// How many things it made, or what it computed.
    done: u64,
    /// In processor time, of the user and of the system.
    took: Duration,
}

impl Layer {
    /// A layer of this name that has done nothing yet.
    pub fn new(name: &'static str) -> Layer {
        Layer {
            name,
            done: 0,
            took: Duration::ZERO,
        }
    }

    /// Counts more of what it did, modulo 2^64, and more time, up to the longest that there is.
    pub fn add(&mut self, done: u64, took: Duration) {
        self.done = self.done.wrapping_add(done);
        self.took = self.took.saturating_add(took);
    }

    /// Writes what it did to standard output, and the nanoseconds to standard error.
    pub fn tell<R: Print + Eprint>(&self, rt: &R) -> io::Result<()> {
        println!(rt; "{} {}", self.name, self.done)?;
        eprintln!(rt; "{} {} ns", self.name, self.took.as_nanos())
    }
}

/// The processor time that this thread has taken since it had taken so much.
pub fn since<R: CpuClock>(rt: &R, start: Duration) -> io::Result<Duration> {
    Ok(rt.thread_cpu_time()?.saturating_sub(start))
}
