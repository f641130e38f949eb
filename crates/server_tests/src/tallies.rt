//! Scripts of which the one who wrote them knows what each statement does, and the replies that are expected
//! of them by a tally of the INSERTs that were not refused.
use std::alloc::{AllocError, Global};

/// What a statement does, as the one who wrote it knows.
#[derive(Clone, Copy)]
pub(crate) enum Does<'a> {
    Creates,
    Inserts(Brings<'a>),
    /// Asks this of all rows, and uses so many columns.
    Asks(Asked, u64),
}

/// What an INSERT brings.
#[derive(Clone, Copy)]
pub(crate) struct Brings<'a> {
    pub(crate) rows: u64,
    /// Of each column.
    pub(crate) granules: u64,
    /// Of the column that is summed.
    pub(crate) sum: u64,
    /// The column that is listed, a line feed before each value. It rises over the INSERTs of a script.
    pub(crate) listed: &'a str,
}

/// What a SELECT asks.
#[derive(Clone, Copy)]
pub(crate) enum Asked {
    Count,
    Sum,
    List,
}

/// The statements of a script over one table of so many columns.
#[derive(Clone, Copy)]
pub(crate) struct Story<'a> {
    pub(crate) columns: u64,
    pub(crate) statements: &'a [(&'a str, Does<'a>)],
}

impl Story<'_> {
    /// The lines of the script.
    pub(crate) fn script(&self, alloc: Global) -> Result<Vec<u8>, AllocError> {
        let mut script = Vec::new(alloc);
        for (body, _) in self.statements {
            script.extend_from_slice(b"a: ")?;
            script.extend_from_slice(body.as_bytes())?;
            script.push(b'\n')?;
        }
        Ok(script)
    }

    /// What is expected where this call of the port fails, by its number from 1, or none for 0.
    pub(crate) fn tally(&self, alloc: Global, fails: u64) -> Result<Tally, AllocError> {
        let mut tally = Tally::new(alloc, fails);
        for (_, does) in self.statements {
            tally.add(alloc, self.columns, *does)?;
        }
        Ok(tally)
    }
}

/// The replies that are expected of the first statements of a script, and what they leave.
#[derive(Drop)]
pub(crate) struct Tally {
    /// The number of the port's call that fails.
    fails: u64,
    /// How many calls of the port there were: one for each column of an INSERT, and for each granule of each
    /// column that a SELECT uses. It is right up to the statement that is refused.
    calls: u64,
    /// How many statements were refused.
    pub(crate) refused: u64,
    /// The text of the replies.
    pub(crate) replies: String,
    line: u64,
    rows: u64,
    granules: u64,
    sum: u64,
    listed: String,
}

impl Tally {
    fn new(alloc: Global, fails: u64) -> Tally {
        Tally {
            fails,
            calls: 0,
            refused: 0,
            replies: String::new(alloc),
            line: 0,
            rows: 0,
            granules: 0,
            sum: 0,
            listed: String::new(alloc),
        }
    }

    /// Adds the reply to one more statement.
    fn add(&mut self, alloc: Global, columns: u64, does: Does<'_>) -> Result<(), AllocError> {
        self.line = self.line.saturating_add(1);
        let reply = self.reply(alloc, columns, does)?;
        let line = self.line;
        let text = format!(in alloc; "{line} a {reply}\n")?;
        self.replies.push_str(text.as_str())
    }

    fn reply(&mut self, alloc: Global, columns: u64, does: Does<'_>) -> Result<String, AllocError> {
        let calls = match does {
            Does::Creates => 0,
            Does::Inserts(_) => columns,
            Does::Asks(_, used) => used.saturating_mul(self.granules),
        };
        if self.meets_the_fault(calls) {
            self.refused = self.refused.saturating_add(1);
            return String::from_str(alloc, "STORE_FAULT");
        }
        match does {
            Does::Creates => {}
            Does::Inserts(brings) => self.take(brings)?,
            Does::Asks(asked, _) => return self.answer(alloc, asked),
        }
        String::from_str(alloc, "ok")
    }

    /// Counts so many more calls, and says whether the one that fails is among them.
    fn meets_the_fault(&mut self, calls: u64) -> bool {
        let before = self.calls;
        self.calls = before.saturating_add(calls);
        before < self.fails && self.fails <= self.calls
    }

    fn take(&mut self, brings: Brings<'_>) -> Result<(), AllocError> {
        self.rows = self.rows.saturating_add(brings.rows);
        self.granules = self.granules.saturating_add(brings.granules);
        self.sum = self.sum.saturating_add(brings.sum);
        self.listed.push_str(brings.listed)
    }

    fn answer(&self, alloc: Global, asked: Asked) -> Result<String, AllocError> {
        match asked {
            Asked::Count => {
                let rows = self.rows;
                format!(in alloc; "rows 1\n{rows}")
            }
            Asked::Sum => {
                let sum = self.sum;
                format!(in alloc; "rows 1\n{sum}")
            }
            Asked::List => {
                let rows = self.rows;
                let listed = self.listed.as_str();
                format!(in alloc; "rows {rows}{listed}")
            }
        }
    }
}
