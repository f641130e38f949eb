//! Granules: what it takes to write columns and to read them again, and plain loops over the same numbers.
use crate::layer::{Layer, since};
use anyhow::bail;
use pj_layout::{Mark, Written, read_granule, write_column};
use pj_value::{Column, Kind, NoMemory, Text};
use std::alloc::Global;
use std::io;
use std::io::{Eprint, Print};
use std::time::{CpuClock, Duration};

/// How many values a column has.
const VALUES: u64 = 1_000_000;

/// How many of them a granule has.
const GRANULARITY: u32 = 8192;

/// How often each column is written and read. In the first turns memory is touched for the first time.
const TURNS: u32 = 5;

/// A column becomes bytes, and the bytes become values.
#[derive(Debug, Drop)]
pub struct BothWays {
    pub write: Layer,
    pub read: Layer,
}

impl BothWays {
    pub fn tell<R: Print + Eprint>(&self, rt: &R) -> io::Result<()> {
        self.write.tell(rt)?;
        self.read.tell(rt)
    }
}

/// Numbers by plain loops and as granules, and texts of 4 to 12 bytes as granules.
#[derive(Debug, Drop)]
pub struct Granules {
    pub loops: BothWays,
    pub numbers: BothWays,
    pub texts: BothWays,
}

/// How long each took in the last of some turns.
pub fn timed<R: CpuClock>(rt: &R, alloc: Global) -> anyhow::Result<Granules> {
    let numbers = numbers(alloc)?;
    let texts = texts(alloc)?;
    'turns: for _turn in 1..TURNS {
        one_turn(rt, alloc, &numbers, &texts)?;
    }
    one_turn(rt, alloc, &numbers, &texts)
}

fn one_turn<R: CpuClock>(
    rt: &R,
    alloc: Global,
    numbers: &Column,
    texts: &Column,
) -> anyhow::Result<Granules> {
    Ok(Granules {
        loops: by_loops(rt, alloc, numbers)?,
        numbers: by_granules(rt, alloc, ["write-numbers", "read-numbers"], numbers)?,
        texts: by_granules(rt, alloc, ["write-texts", "read-texts"], texts)?,
    })
}

/// The numbers of a column as their bytes alone, and these as numbers.
fn by_loops<R: CpuClock>(rt: &R, alloc: Global, column: &Column) -> anyhow::Result<BothWays> {
    let Some(numbers) = column.numbers() else {
        bail!("the column has no numbers");
    };
    let start = rt.thread_cpu_time()?;
    let bytes = bytes_of(alloc, numbers)?;
    let write = ended(rt, "write-loop", bytes.len(), start)?;
    let start = rt.thread_cpu_time()?;
    let read = numbers_of(alloc, bytes.as_slice())?;
    Ok(BothWays {
        write,
        read: ended(rt, "read-loop", read.len(), start)?,
    })
}

fn bytes_of(alloc: Global, numbers: &[u64]) -> Result<Vec<u8>, NoMemory> {
    let mut bytes = Vec::with_capacity(alloc, numbers.len().saturating_mul(8))?;
    'numbers: for number in numbers {
        bytes.extend_from_slice(&number.to_le_bytes())?;
    }
    Ok(bytes)
}

fn numbers_of(alloc: Global, bytes: &[u8]) -> Result<Vec<u64>, NoMemory> {
    let mut numbers = Vec::with_capacity(alloc, bytes.len() / 8)?;
    let (chunks, _) = bytes.as_chunks::<8>();
    'numbers: for chunk in chunks {
        numbers.push(u64::from_le_bytes(*chunk))?;
    }
    Ok(numbers)
}

/// A column as a blob, and each of its granules as a column.
fn by_granules<R: CpuClock>(
    rt: &R,
    alloc: Global,
    names: [&'static str; 2],
    column: &Column,
) -> anyhow::Result<BothWays> {
    let start = rt.thread_cpu_time()?;
    let written = write_column(alloc, column, GRANULARITY)?;
    let write = ended(rt, names[0], written.bytes.as_slice().len(), start)?;
    let start = rt.thread_cpu_time()?;
    let read = read_each(alloc, &written, column.kind())?;
    Ok(BothWays {
        write,
        read: ended(rt, names[1], read, start)?,
    })
}

/// Reads each granule, and answers how many values they have.
fn read_each(alloc: Global, written: &Written, kind: Kind) -> anyhow::Result<usize> {
    let bytes = written.bytes.as_slice();
    let mut values: usize = 0;
    'marks: for mark in written.marks.as_slice() {
        let column = read_one(alloc, bytes, mark, kind)?;
        values = values.saturating_add(column.len());
    }
    Ok(values)
}

fn read_one(alloc: Global, bytes: &[u8], mark: &Mark, kind: Kind) -> anyhow::Result<Column> {
    let from = mark.at as usize;
    let to = from.saturating_add(mark.size as usize);
    match bytes.get(from..to) {
        Some(bytes) => Ok(read_granule(alloc, kind, mark.rows, bytes)?),
        None => bail!("no granule stands at the mark"),
    }
}

/// A layer that did so much since then.
fn ended<R: CpuClock>(
    rt: &R,
    name: &'static str,
    done: usize,
    start: Duration,
) -> io::Result<Layer> {
    let took = since(rt, start)?;
    let mut layer = Layer::new(name);
    layer.add(done as u64, took);
    Ok(layer)
}

/// The numbers below 1,000,000, each multiplied by the same, so that they have bytes of all sizes.
fn numbers(alloc: Global) -> Result<Column, NoMemory> {
    let mut numbers = Vec::with_capacity(alloc, VALUES as usize)?;
    'numbers: for number in 0..VALUES {
        numbers.push(scattered(number))?;
    }
    Ok(Column::from_numbers(numbers))
}

/// Texts whose lengths don't follow each other.
fn texts(alloc: Global) -> Result<Column, NoMemory> {
    let letters = b"abcdefghijkl";
    let mut texts = Vec::with_capacity(alloc, VALUES as usize)?;
    'texts: for number in 0..VALUES {
        let len = 4 + (scattered(number) >> 40) as usize % 9;
        texts.push(Text::new(alloc, &letters[..len])?)?;
    }
    Ok(Column::from_texts(texts))
}

fn scattered(number: u64) -> u64 {
    number.wrapping_mul(11400714819323198485)
}
