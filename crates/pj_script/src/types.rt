//! What a script is read as: its lines and the names of its sessions.
use pj_value::{List, Text};

/// The program that a script is for, which decides what its lines may be.
#[derive(Clone, Copy, Debug, PartialEq, Eq)]
pub enum ScriptMode {
    /// `projplay`: the lines are run in their order.
    Play,
}

/// A script: the sessions' names in the order of their first lines, and the lines that aren't skipped.
#[derive(Debug, Drop)]
pub struct Script {
    pub names: List<Text>,
    pub lines: List<ScriptLine>,
}

/// A line of a script.
#[derive(Debug, Drop)]
pub struct ScriptLine {
    /// Its number. All lines of the script count, from 1.
    pub line: u32,
    /// The number of its session's name, from 0.
    pub name: u32,
    pub act: Act,
}

/// What a line asks for.
#[derive(Debug, Drop)]
pub enum Act {
    /// A statement, from its first move to its reply: the body, without the blanks round it.
    Whole(Text),
}
