//! Queries over the rows of one table.
ghost use Rattle.std.specs.Prelude.{◌≡◌, IfOk};

use crate::cond::Cond;
use crate::expr::Expr;
use pj_value::{AggKind, List, NoMemory};
use std::alloc::Global;

/// A call of an aggregate function. The count of rows alone has no argument.
#[derive(Debug, Drop)]
pub struct AggCall {
    pub kind: AggKind,
    pub argument: Option<Expr>,
}

/// What a column of the answer, or of the order, holds.
#[derive(Debug, Drop)]
pub enum Item {
    Plain(Expr),
    Agg(AggCall),
}

/// A key of ORDER BY.
#[derive(Debug, Drop)]
pub struct OrderKey {
    pub item: Item,
    pub descending: bool,
}

/// A query: items, a filter, GROUP BY, ORDER BY and LIMIT.
#[derive(Debug, Drop)]
pub struct Query {
    pub items: List<Item>,
    pub filter: Cond,
    pub groups: List<Expr>,
    pub order: List<OrderKey>,
    pub limit: Option<u64>,
}

impl AggCall {
    /// The same call, in memory of its own.
    pub fn duplicate(&self, alloc: Global) -> Result<AggCall, NoMemory>
        ensures { IfOk result (λ c. c ≡ self.now) }
    {
        let argument = match &self.argument {
            Some(expr) => Some(expr.duplicate(alloc)?),
            None => None,
        };
        Ok(AggCall {
            kind: self.kind,
            argument,
        })
    }
}

impl Item {
    /// The same item, in memory of its own.
    pub fn duplicate(&self, alloc: Global) -> Result<Item, NoMemory>
        ensures { IfOk result (λ i. i ≡ self.now) }
    {
        match self {
            Item::Plain(expr) => Ok(Item::Plain(expr.duplicate(alloc)?)),
            Item::Agg(call) => Ok(Item::Agg(call.duplicate(alloc)?)),
        }
    }
}

impl OrderKey {
    /// The same key, in memory of its own.
    pub fn duplicate(&self, alloc: Global) -> Result<OrderKey, NoMemory>
        ensures { IfOk result (λ k. k ≡ self.now) }
    {
        let item = self.item.duplicate(alloc)?;
        Ok(OrderKey {
            item,
            descending: self.descending,
        })
    }
}

impl Query {
    /// The same query, in memory of its own.
    pub fn duplicate(&self, alloc: Global) -> Result<Query, NoMemory>
        ensures { IfOk result (λ q. q ≡ self.now) }
    {
        let items = List::from_vec(copies_of_items(alloc, self.items.as_slice())?);
        let filter = self.filter.duplicate(alloc)?;
        let groups = List::from_vec(copies_of_groups(alloc, self.groups.as_slice())?);
        let order = List::from_vec(copies_of_keys(alloc, self.order.as_slice())?);
        Ok(Query {
            items,
            filter,
            groups,
            order,
            limit: self.limit,
        })
    }
}

/// Copies of the items.
fn copies_of_items(alloc: Global, items: &[Item]) -> Result<Vec<Item>, NoMemory>
    ensures { IfOk result (λ v. v.items ≡ items.now) }
{
    let mut copies = Vec::with_capacity(alloc, items.len())?;
    for item in items {
        copies.push(item.duplicate(alloc)?)?;
    }
    Ok(copies)
}

/// Copies of the values of GROUP BY.
fn copies_of_groups(alloc: Global, groups: &[Expr]) -> Result<Vec<Expr>, NoMemory>
    ensures { IfOk result (λ v. v.items ≡ groups.now) }
{
    let mut copies = Vec::with_capacity(alloc, groups.len())?;
    for expr in groups {
        copies.push(expr.duplicate(alloc)?)?;
    }
    Ok(copies)
}

/// Copies of the keys of ORDER BY.
fn copies_of_keys(alloc: Global, keys: &[OrderKey]) -> Result<Vec<OrderKey>, NoMemory>
    ensures { IfOk result (λ v. v.items ≡ keys.now) }
{
    let mut copies = Vec::with_capacity(alloc, keys.len())?;
    for key in keys {
        copies.push(key.duplicate(alloc)?)?;
    }
    Ok(copies)
}
