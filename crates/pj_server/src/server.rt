//! The state of the server, and the moves that change it.
ghost use Rattle.std.specs.Prelude.{◌≡◌, ◌<◌, ◌≤◌, ◌↔◌, List, [], ◌∷◌, length, IfOk, IfErr, OnOk, OnErr, IsErrOf};
ghost use Rattle.pj_io.specs.Faults.{Rose};
ghost use Rattle.pj_value.specs.Rows.{HaveKinds};
ghost use Rattle.pj_expr.specs.declared.table.Table.{Table};
ghost use Rattle.pj_journal.specs.History.{catalog, IsRegular, WhatFits};
ghost use Rattle.pj_expr.specs.Tables.{kinds_of, TableFits};
ghost use Rattle.pj_journal.specs.Log.{empty_log, IsFull};
ghost use Rattle.pj_bind.specs.Binding.{IsUnknown};
ghost use Rattle.pj_legal.specs.Bodies.{BodyBinds};
ghost use Rattle.pj_legal.specs.Statements.{whole};
ghost use Rattle.pj_legal.specs.Forms.{entry_of};
ghost use Rattle.pj_build.specs.declared.fault.BuildFault.TheVariants as build_faults;

use crate::refusals::refusal_for;
use crate::store::{Store, append, inserted_part};
use pj_bind::types::{Bound, LimitName, Refusal};
use pj_bind::{BindFault, bind, bound_tables_fit};
use pj_build::{BuildFault, build};
use pj_exec::run_select;
use pj_expr::{Query, Table};
use pj_journal::types::Catalog;
use pj_journal::{Actor, Entry, Journal, MoveFault, TABLES, What, parts_hold_the_rows};
use pj_legal::{Parsed, Reply, history_refuses_no_body, port_refuses_no_body, read_statement};
use pj_port::Port;
use pj_value::{NoMemory, Rows};
use std::alloc::Global;
use std::marker::Model;

/// Whose move it is, and of which line.
#[derive(Clone, Copy)]
pub(crate) struct By {
    pub(crate) session: u32,
    pub(crate) line: u32,
}

/// The journal, the catalog, and for each table, in the order of their numbers, the store of its parts. Contracts
/// see the journal.
#[derive(Drop)]
pub(crate) struct Server<P: Port> {
    journal: Journal,
    tables: Catalog,
    stores: Vec<Store<P::Blob>>,
}

impl<P: Port> Model for Server<P> {
    ghost use Rattle.pj_journal.specs.Log.{Log};
    ghost use Rattle.pj_server.specs.State.{Stands};

    ghost Value = { Log };

    ghost view = { λ s. s.journal };

    ghost invariant = { λ s. Stands P.Blob.told P.Blob.size s.journal.entries s.tables s.stores.items };
}

impl<P: Port> Server<P> {
    ghost use Rattle.pj_server.specs.Moves.{
      request_of,
      Adds,
      Serves,
      BoundFits,
      Does,
      ChangesNothing,
      IsReadFault,
    };
    ghost use Rattle.pj_server.specs.PortFaults.{IsBlamed, counted};

    /// No tables, and an empty journal of at most `limit` entries.
    pub(crate) fn new(alloc: Global, limit: u32) -> Server<P>
        ensures { result ≡ empty_log limit }
    {
        Server {
            journal: Journal::new(alloc, limit),
            tables: Catalog::new(alloc),
            stores: Vec::new(alloc),
        }
    }

    /// The journal, lent.
    pub(crate) fn journal(&self) -> &Journal
        ensures journal { result.now ≡ self.now }
        ensures regular { IsRegular self.now.entries }
        ensures few { length self.now.entries ≤ self.now.limit }
    {
        // Once all fields were read, the proof knows what the type says of them: `regular`. The call says
        // `few`.
        let _ = &self.stores;
        let _ = self.journal.entries();
        &self.journal
    }

    /// The journal, when nothing more is to come.
    pub(crate) fn into_journal(self) -> Journal
        ensures { result ≡ self }
    {
        let Server {
            journal,
            tables: _,
            stores: _,
        } = self;
        journal
    }

    /// Runs the statement of a session's line, from its first move to its reply.
    pub(crate) fn statement(&mut self, alloc: Global, port: &mut P, by: By, body: &[u8]) -> Reply
        ensures serves { Serves P.Blob.tells self.old self.new (whole by.line by.session body.now) result }
        ensures blamed { IsBlamed result (counted (P.faults port.old) (P.reads port.old))
            (counted (P.faults port.new) (P.reads port.new)) }
    {
        match self.reserve() {
            Ok(()) => self.first_move(alloc, port, by, body),
            Err(MoveFault::Full) => Reply::Refused(Refusal::Limit(LimitName::History)),
            Err(MoveFault::NoMemory) => Reply::Refused(Refusal::NoMemory),
        }
    }

    /// Makes room in the journal for one move.
    fn reserve(&mut self) -> Result<(), MoveFault>
        ensures room { OnOk result (1 ≤ self.new.spare) }
        ensures below { OnOk result (length self.new.entries < self.new.limit) }
        ensures full { (result ≡ Err MoveFault.Full) ↔ IsFull self.old }
        ensures same { Adds self.old self.new [] }
    {
        self.journal.reserve()
    }

    fn first_move(&mut self, alloc: Global, port: &mut P, by: By, body: &[u8]) -> Reply
        requires room { 1 ≤ self.old.spare }
        requires below { length self.old.entries < self.old.limit }
        ensures serves { Serves P.Blob.tells self.old self.new (whole by.line by.session body.now) result }
        ensures blamed { IsBlamed result (counted (P.faults port.old) (P.reads port.old))
            (counted (P.faults port.new) (P.reads port.new)) }
    {
        bound_tables_fit();
        history_refuses_no_body();
        port_refuses_no_body();
        match self.read(alloc, body) {
            Ok(bound) => self.run_bound(alloc, port, by, bound),
            Err(BindFault::Refused(refusal)) => {
                self.note(by, What::Refused);
                Reply::Refused(refusal)
            }
            Err(BindFault::NoMemory) => Reply::Refused(Refusal::NoMemory),
        }
    }

    /// What the body means for the tables that there are.
    fn read(&self, alloc: Global, body: &[u8]) -> Result<Bound, BindFault>
        ensures bound { IfOk result (BodyBinds (catalog self.now.entries) body.now) }
        ensures refused { IfErr result (IsReadFault (catalog self.now.entries) body.now) }
    {
        let parsed = read_statement(alloc, body)?;
        match parsed {
            Parsed::Statement(statement) => bind(alloc, &statement, &self.tables),
            Parsed::Refused(refusal) => Err(BindFault::Refused(refusal)),
        }
    }

    fn run_bound(&mut self, alloc: Global, port: &mut P, by: By, bound: Bound) -> Reply
        requires room { 1 ≤ self.old.spare }
        requires below { length self.old.entries < self.old.limit }
        requires fits { BoundFits (catalog self.old.entries) bound }
        ensures does { Does P.Blob.tells self.old self.new (request_of by) bound result }
        ensures blamed { IsBlamed result (counted (P.faults port.old) (P.reads port.old))
            (counted (P.faults port.new) (P.reads port.new)) }
    {
        match bound {
            Bound::Create(table) => match self.create(alloc, by, table) {
                Ok(()) => Reply::Done,
                Err(NoMemory) => Reply::Refused(Refusal::NoMemory),
            },
            Bound::Insert { table, rows } => self.insert(alloc, port, by, table, rows),
            Bound::Select { table, query } => self.select(alloc, port, by, table, &query),
        }
    }

    /// Adds a move that changes neither tables nor rows.
    fn note(&mut self, by: By, what: What)
        requires room { 1 ≤ self.old.spare }
        requires nothing { ChangesNothing what }
        requires fits { WhatFits self.old.entries what }
        ensures { Adds self.old self.new (entry_of (request_of by) what ∷ []) }
    {
        self.journal.add(Entry {
            actor: Actor::Session(by.session),
            line: by.line,
            what,
        });
    }

    fn create(&mut self, alloc: Global, by: By, table: Table) -> Result<(), NoMemory>
        requires room { 1 ≤ self.old.spare }
        requires unknown { IsUnknown (catalog self.old.entries) table.name }
        requires few { length (catalog self.old.entries) < TABLES }
        requires table { TableFits table }
        ensures done { OnOk result
            (Adds self.old self.new (entry_of (request_of by) (What.Created table) ∷ [])) }
        ensures same { OnErr result (Adds self.old self.new []) }
    {
        let held = table.duplicate(alloc)?;
        self.stores.reserve(1)?;
        self.tables.add(held)?;
        let store = Store {
            parts: Vec::new(alloc),
            next: 1,
        };
        self.stores.push(store).unwrap();
        self.journal.add(Entry {
            actor: Actor::Session(by.session),
            line: by.line,
            what: What::Created(table),
        });
        Ok(())
    }

    fn insert(&mut self, alloc: Global, port: &mut P, by: By, table: u32, rows: Rows) -> Reply
        requires room { 1 ≤ self.old.spare }
        requires below { length self.old.entries < self.old.limit }
        requires fits { BoundFits (catalog self.old.entries) (Bound.Insert table rows) }
        ensures does { Does P.Blob.tells self.old self.new (request_of by) (Bound.Insert table rows) result }
        ensures blamed { IsBlamed result (counted (P.faults port.old) (P.reads port.old))
            (counted (P.faults port.new) (P.reads port.new)) }
    {
        self.note(by, What::Begun { table });
        match self.reserve() {
            Ok(()) => match self.commit(alloc, port, by, table, rows) {
                Ok(()) => Reply::Done,
                Err(BuildFault::StoreFault) => Reply::Refused(Refusal::StoreFault),
                Err(BuildFault::NoMemory) => Reply::Refused(Refusal::NoMemory),
            },
            Err(MoveFault::Full) => Reply::Refused(Refusal::Limit(LimitName::History)),
            Err(MoveFault::NoMemory) => Reply::Refused(Refusal::NoMemory),
        }
    }

    /// Builds a part of the rows of an INSERT, and commits it as the table's next block. After a fault the table
    /// is as it was.
    fn commit(
        &mut self,
        alloc: Global,
        port: &mut P,
        by: By,
        table: u32,
        rows: Rows,
    ) -> Result<(), BuildFault>
        requires room { 1 ≤ self.old.spare }
        requires below { length self.old.entries < self.old.limit }
        requires fits { BoundFits (catalog self.old.entries) (Bound.Insert table rows) }
        ensures done { OnOk result
            ((block : _)
            × Adds self.old self.new (entry_of (request_of by) (What.Inserted table block rows) ∷ [])) }
        ensures same { OnErr result (Adds self.old self.new []) }

        ensures later { P.faults port.old ≤ P.faults port.new }
        ensures failed { IsErrOf result build_faults.StoreFault → Rose (P.faults port.old) (P.faults port.new) }
        ensures calm { (IsErrOf result build_faults.StoreFault → ⊥) → P.faults port.new ≡ P.faults port.old }
        ensures unread { P.reads port.new ≡ P.reads port.old }
    {
        let number = table as usize;
        let draft = build(alloc, port, &self.tables.tables()[number], &rows)?;
        // The call says that there are fewer than 2^32 entries, so that the next numbers fit their types.
        let _entries = self.journal.entries();
        let store = &self.stores[number];
        let block = store.next;
        let part = inserted_part(alloc, draft, store.parts.len() as u64 + 1, block)?;
        append(&mut self.stores, number, part)?;
        self.journal.add(Entry {
            actor: Actor::Session(by.session),
            line: by.line,
            what: What::Inserted { table, block, rows },
        });
        Ok(())
    }

    fn select(&mut self, alloc: Global, port: &mut P, by: By, table: u32, query: &Query) -> Reply
        requires room { 1 ≤ self.old.spare }
        requires below { length self.old.entries < self.old.limit }
        requires fits { BoundFits (catalog self.old.entries) (Bound.Select table query.now) }
        ensures does { Does P.Blob.tells self.old self.new (request_of by) (Bound.Select table query.now) result }
        ensures blamed { IsBlamed result (counted (P.faults port.old) (P.reads port.old))
            (counted (P.faults port.new) (P.reads port.new)) }
    {
        parts_hold_the_rows();
        self.note(by, What::Looked { table });
        let number = table as usize;
        let parts = self.stores[number].parts.as_slice();
        match run_select(alloc, port, &self.tables.tables()[number], parts, query) {
            Ok(rows) => Reply::Rows(rows),
            Err(fault) => Reply::Refused(refusal_for(parts, fault)),
        }
    }
}
