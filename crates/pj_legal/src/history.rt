//! The text of a history.
ghost use Rattle.std.specs.Prelude.{◌≡◌, ◌++◌, map, IfOk, OnOk};
ghost use Rattle.pj_legal.specs.Texts.{history_text as text_of_history, entry_text};
ghost use Rattle.pj_legal.specs.Texts.{actor_text, what_text, name_at};

use crate::bytes::{put, put_number};
use pj_journal::{Actor, Entry, Journal, What};
use pj_script::types::Script;
use pj_value::{NoMemory, Text};
use std::alloc::Global;

/// The text of the journal's history, with the names of the script's sessions: how many entries there are,
/// and a text line for each. An entry names its table by the catalog of its own place. Takes time and memory
/// linear in the history.
pub fn history_text(alloc: Global, script: &Script, journal: &Journal) -> Result<Text, NoMemory>
    ensures { IfOk result (λ text. text ≡ text_of_history script.now.names journal.now.entries) }
{
    let names = script.names.as_slice();
    let entries = journal.entries();
    let mut tables: Vec<&Text> = Vec::new(alloc);
    let mut out = Vec::new(alloc);
    put(&mut out, b"history ")?;
    put_number(&mut out, entries.len() as u64)?;
    out.push(b'\n')?;
    'entries: for (at, entry) in entries.iter().enumerate() {
        put_entry(&mut out, names, at as u64 + 1, tables.as_slice(), entry)?;
        if let What::Created(table) = &entry.what {
            tables.push(&table.name)?;
        }
    }
    Ok(Text::from_vec(out))
}

fn put_entry(
    out: &mut Vec<u8>,
    names: &[Text],
    number: u64,
    tables: &[&Text],
    entry: &Entry,
) -> Result<(), NoMemory>
    ensures { OnOk result
        (out.new.items
        ≡ out.old.items ++ entry_text names.now number (map (λ t. t.now) tables.now) entry.now) }
{
    put_number(out, number)?;
    out.push(b' ')?;
    put_actor(out, names, entry.actor)?;
    out.push(b' ')?;
    put_number(out, entry.line as u64)?;
    out.push(b' ')?;
    put_what(out, tables, &entry.what)?;
    out.push(b'\n')?;
    Ok(())
}

fn put_actor(out: &mut Vec<u8>, names: &[Text], actor: Actor) -> Result<(), NoMemory>
    ensures { OnOk result (out.new.items ≡ out.old.items ++ actor_text names.now actor) }
{
    match actor {
        Actor::Session(number) => put_name(out, names, number),
        Actor::Worker(number) => {
            out.push(b'*')?;
            put_number(out, number as u64)
        }
    }
}

fn put_name(out: &mut Vec<u8>, names: &[Text], number: u32) -> Result<(), NoMemory>
    ensures { OnOk result (out.new.items ≡ out.old.items ++ name_at names.now number) }
{
    match names.get(number as usize) {
        Some(name) => put(out, name.as_slice()),
        None => Ok(()),
    }
}

fn put_what(out: &mut Vec<u8>, tables: &[&Text], what: &What) -> Result<(), NoMemory>
    ensures { OnOk result
        (out.new.items ≡ out.old.items ++ what_text (map (λ t. t.now) tables.now) what.now) }
{
    match what {
        What::Created(table) => {
            put(out, b"created ")?;
            put(out, table.name.as_slice())
        }
        What::Refused => put(out, b"refused"),
        What::Looked { table } => {
            put(out, b"looked ")?;
            put_table(out, tables, *table)
        }
        What::Begun { table } => {
            put(out, b"begun ")?;
            put_table(out, tables, *table)
        }
        What::Inserted { table, block, rows } => {
            put(out, b"inserted ")?;
            put_table(out, tables, *table)?;
            out.push(b' ')?;
            put_number(out, *block)?;
            out.push(b' ')?;
            put_number(out, rows.len() as u64)
        }
    }
}

fn put_table(out: &mut Vec<u8>, tables: &[&Text], number: u32) -> Result<(), NoMemory>
    ensures { OnOk result (out.new.items ≡ out.old.items ++ name_at (map (λ t. t.now) tables.now) number) }
{
    match tables.get(number as usize) {
        Some(name) => put(out, name.as_slice()),
        None => Ok(()),
    }
}
