//! The query of a SELECT, and the first of its names that is no column.
ghost use Rattle.std.specs.Prelude.{◌≡◌, IfOk, map};
ghost use Rattle.std.specs.Option.{option_map, option_zip};
ghost use Rattle.std.specs.List.{flat_map};
ghost use Rattle.pj_bind.specs.Names.{first_unknown};
ghost use Rattle.pj_bind.specs.Filling.{column_names};
ghost use Rattle.pj_bind.specs.Queries.{listed, is_alias, has_alias, is_value, lone_name};
ghost use Rattle.pj_bind.specs.Queries.{item_named, value_named, key_named, names_of_item, names_of_filter};
ghost use Rattle.pj_bind.specs.Queries.{names_of_group, names_of_key, column_names_of, all_of};
ghost use Rattle.pj_bind.specs.Queries.{value_of_tree, argument_of, item_of, every_column, items_of};
ghost use Rattle.pj_bind.specs.Queries.{filter_of, value_of_item, group_of, key_item_of, key_of, query_of};
ghost use Rattle.pj_bind.specs.Parts.{groups_of, order_of, query_with};

use crate::meaning::{condition_in, meaning_of, value_in};
use crate::names::unknown_in_tree;
use pj_expr::{AggCall, ColumnDef, Cond, Expr, Item, OrderKey, Query};
use pj_grammar::types::{Listed, Tree, TreeItem, TreeOrder, TreeSelect};
use pj_value::{List, NoMemory, Text};
use std::alloc::Global;

/// The items that are listed; none for `*`.
pub(crate) fn listed(items: &Option<List<Listed>>) -> &[Listed]
    ensures { result.now ≡ listed items.now }
{
    match items {
        Some(items) => items.as_slice(),
        None => &[],
    }
}

/// Whether an item has this alias.
fn has_alias(name: &Text, item: &Listed) -> bool
    ensures { result ≡ has_alias name.now item.now }
{
    match &item.alias {
        Some(alias) => alias.as_slice() == name.as_slice(),
        None => false,
    }
}

/// Whether an item is no call.
fn is_value(item: &TreeItem) -> bool
    ensures { result ≡ is_value item.now }
{
    match item {
        TreeItem::Value(_) => true,
        TreeItem::Call(_, _) => false,
    }
}

/// The name that a tree is alone.
fn lone_name(tree: &Tree) -> Option<&Text>
    ensures { option_map (λ name. name.now) result ≡ lone_name tree.now }
{
    match tree {
        Tree::Name(name) => Some(name),
        _ => None,
    }
}

/// The first item that a tree names by its alias.
fn item_named<'a>(items: &'a [Listed], tree: &Tree) -> Option<&'a Listed>
    ensures { option_map (λ item. item.now) result ≡ item_named items.now tree.now }
{
    let name = lone_name(tree)?;
    items.iter().find(|item| has_alias(name, *item))
}

/// The first item, among those that are no calls, that a tree names by its alias.
fn value_named<'a>(items: &'a [Listed], tree: &Tree) -> Option<&'a Listed>
    ensures { option_map (λ item. item.now) result ≡ value_named items.now tree.now }
{
    let name = lone_name(tree)?;
    items
        .iter()
        .find(|item| has_alias(name, *item) && is_value(&item.item))
}

/// The item that a key of ORDER BY names.
fn key_named<'a>(items: &'a [Listed], key: &TreeItem) -> Option<&'a Listed>
    ensures { option_map (λ item. item.now) result ≡ key_named items.now key.now }
{
    match key {
        TreeItem::Value(tree) => item_named(items, tree),
        TreeItem::Call(_, _) => None,
    }
}

/// The first name of a SELECT that is neither a column nor an alias where aliases count.
pub(crate) fn unknown_in_select<'a>(
    columns: &[ColumnDef],
    select: &'a TreeSelect,
) -> Option<&'a Text>
    ensures { option_map (λ name. name.now) result
        ≡ first_unknown (column_names columns.now) (column_names_of select.now) }
{
    let items = listed(&select.items);
    let first = unknown_in_items(columns, items);
    let second = unknown_in_filter(columns, &select.filter);
    let third = unknown_in_groups(columns, items, select.groups.as_slice());
    let fourth = unknown_in_order(columns, items, select.order.as_slice());
    first.or(second.or(third.or(fourth)))
}

fn unknown_in_item<'a>(columns: &[ColumnDef], item: &'a TreeItem) -> Option<&'a Text>
    ensures { option_map (λ name. name.now) result
        ≡ first_unknown (column_names columns.now) (names_of_item item.now) }
{
    match item {
        TreeItem::Value(tree) => unknown_in_tree(columns, tree),
        TreeItem::Call(_, Some(tree)) => unknown_in_tree(columns, tree),
        TreeItem::Call(_, None) => None,
    }
}

fn unknown_in_items<'a>(columns: &[ColumnDef], items: &'a [Listed]) -> Option<&'a Text>
    ensures { option_map (λ name. name.now) result
        ≡ first_unknown (column_names columns.now) (flat_map (λ i. names_of_item i.item) items.now) }
{
    'items: for item in items {
        if let Some(name) = unknown_in_item(columns, &item.item) {
            return Some(name);
        }
    }
    None
}

fn unknown_in_filter<'a>(columns: &[ColumnDef], filter: &'a Option<Tree>) -> Option<&'a Text>
    ensures { option_map (λ name. name.now) result
        ≡ first_unknown (column_names columns.now) (names_of_filter filter.now) }
{
    match filter {
        Some(tree) => unknown_in_tree(columns, tree),
        None => None,
    }
}

fn unknown_in_group<'a>(columns: &[ColumnDef], items: &[Listed], tree: &'a Tree) -> Option<&'a Text>
    ensures { option_map (λ name. name.now) result
        ≡ first_unknown (column_names columns.now) (names_of_group items.now tree.now) }
{
    if value_named(items, tree).is_some() {
        None
    } else {
        unknown_in_tree(columns, tree)
    }
}

fn unknown_in_groups<'a>(
    columns: &[ColumnDef],
    items: &[Listed],
    groups: &'a [Tree],
) -> Option<&'a Text>
    ensures { option_map (λ name. name.now) result
        ≡ first_unknown (column_names columns.now) (flat_map (names_of_group items.now) groups.now) }
{
    'groups: for tree in groups {
        if let Some(name) = unknown_in_group(columns, items, tree) {
            return Some(name);
        }
    }
    None
}

fn unknown_in_key<'a>(
    columns: &[ColumnDef],
    items: &[Listed],
    key: &'a TreeItem,
) -> Option<&'a Text>
    ensures { option_map (λ name. name.now) result
        ≡ first_unknown (column_names columns.now) (names_of_key items.now key.now) }
{
    if key_named(items, key).is_some() {
        None
    } else {
        unknown_in_item(columns, key)
    }
}

fn unknown_in_order<'a>(
    columns: &[ColumnDef],
    items: &[Listed],
    order: &'a [TreeOrder],
) -> Option<&'a Text>
    ensures { option_map (λ name. name.now) result
        ≡ first_unknown (column_names columns.now)
        (flat_map (λ key. names_of_key items.now key.item) order.now) }
{
    'keys: for key in order {
        if let Some(name) = unknown_in_key(columns, items, &key.item) {
            return Some(name);
        }
    }
    None
}

/// The query of a SELECT; none where a name is unknown, or a value stands for a condition or the other way
/// round. It takes time linear in the SELECT, times its items and the columns for each name.
pub(crate) fn query_of(
    alloc: Global,
    columns: &[ColumnDef],
    select: &TreeSelect,
) -> Result<Option<Query>, NoMemory>
    ensures { IfOk result (λ q. q ≡ query_of columns.now select.now) }
{
    let shown = items_and_filter(alloc, columns, select)?;
    let arranged = groups_and_order(alloc, columns, select)?;
    Ok(query_with(shown.zip(arranged), select.limit))
}

/// What a query gives, and of which rows.
fn items_and_filter(
    alloc: Global,
    columns: &[ColumnDef],
    select: &TreeSelect,
) -> Result<Option<(List<Item>, Cond)>, NoMemory>
    ensures { IfOk result (λ shown. shown
        ≡ option_zip (items_of columns.now select.now.items) (filter_of columns.now select.now.filter)) }
{
    let items = items_of(alloc, columns, &select.items)?;
    let filter = filter_of(alloc, columns, &select.filter)?;
    Ok(items.zip(filter))
}

/// How a query groups what it gives, and in which order it gives it.
fn groups_and_order(
    alloc: Global,
    columns: &[ColumnDef],
    select: &TreeSelect,
) -> Result<Option<(List<Expr>, List<OrderKey>)>, NoMemory>
    ensures { IfOk result (λ arranged. arranged
        ≡ option_zip (groups_of columns.now select.now) (order_of columns.now select.now)) }
{
    let named = listed(&select.items);
    let groups = groups_of(alloc, columns, named, select.groups.as_slice())?;
    let order = keys_of(alloc, columns, named, select.order.as_slice())?;
    Ok(groups.zip(order))
}

/// The query of these parts, if they are there.
fn query_with(
    parts: Option<((List<Item>, Cond), (List<Expr>, List<OrderKey>))>,
    limit: Option<u64>,
) -> Option<Query>
    ensures { result ≡ query_with parts limit }
{
    let ((items, filter), (groups, order)) = parts?;
    Some(Query {
        items,
        filter,
        groups,
        order,
        limit,
    })
}

fn value_of_tree(
    alloc: Global,
    columns: &[ColumnDef],
    tree: &Tree,
) -> Result<Option<Expr>, NoMemory>
    ensures { IfOk result (λ e. e ≡ value_of_tree columns.now tree.now) }
{
    Ok(value_in(meaning_of(alloc, columns, tree)?))
}

fn argument_of(
    alloc: Global,
    columns: &[ColumnDef],
    argument: &Option<Tree>,
) -> Result<Option<Option<Expr>>, NoMemory>
    ensures { IfOk result (λ a. a ≡ argument_of columns.now argument.now) }
{
    match argument {
        None => Ok(Some(None)),
        Some(tree) => match value_of_tree(alloc, columns, tree)? {
            Some(value) => Ok(Some(Some(value))),
            None => Ok(None),
        },
    }
}

fn item_of(alloc: Global, columns: &[ColumnDef], item: &TreeItem) -> Result<Option<Item>, NoMemory>
    ensures { IfOk result (λ i. i ≡ item_of columns.now item.now) }
{
    match item {
        TreeItem::Value(tree) => match value_of_tree(alloc, columns, tree)? {
            Some(value) => Ok(Some(Item::Plain(value))),
            None => Ok(None),
        },
        TreeItem::Call(kind, argument) => match argument_of(alloc, columns, argument)? {
            Some(argument) => Ok(Some(Item::Agg(AggCall {
                kind: *kind,
                argument,
            }))),
            None => Ok(None),
        },
    }
}

/// Each column as an item.
fn every_column(alloc: Global, columns: &[ColumnDef]) -> Result<Vec<Item>, NoMemory>
    ensures { IfOk result (λ items. items.items ≡ every_column columns.now) }
{
    let mut items = Vec::with_capacity(alloc, columns.len())?;
    'columns: for at in 0..columns.len() {
        items.push(Item::Plain(Expr::Column(at)))?;
    }
    Ok(items)
}

fn items_of(
    alloc: Global,
    columns: &[ColumnDef],
    items: &Option<List<Listed>>,
) -> Result<Option<List<Item>>, NoMemory>
    ensures { IfOk result (λ is. is ≡ items_of columns.now items.now) }
{
    match items {
        Some(items) => listed_items(alloc, columns, items.as_slice()),
        None => Ok(Some(List::from_vec(every_column(alloc, columns)?))),
    }
}

fn listed_items(
    alloc: Global,
    columns: &[ColumnDef],
    items: &[Listed],
) -> Result<Option<List<Item>>, NoMemory>
    ensures { IfOk result (λ is. is ≡ all_of (map (λ i. item_of columns.now i.item) items.now)) }
{
    let mut found = Vec::with_capacity(alloc, items.len())?;
    'items: for listed in items {
        match item_of(alloc, columns, &listed.item)? {
            Some(item) => found.push(item)?,
            None => return Ok(None),
        }
    }
    Ok(Some(List::from_vec(found)))
}

fn filter_of(
    alloc: Global,
    columns: &[ColumnDef],
    filter: &Option<Tree>,
) -> Result<Option<Cond>, NoMemory>
    ensures { IfOk result (λ c. c ≡ filter_of columns.now filter.now) }
{
    match filter {
        Some(tree) => Ok(condition_in(meaning_of(alloc, columns, tree)?)),
        None => Ok(Some(Cond::All)),
    }
}

fn value_of_item(
    alloc: Global,
    columns: &[ColumnDef],
    item: &TreeItem,
) -> Result<Option<Expr>, NoMemory>
    ensures { IfOk result (λ e. e ≡ value_of_item columns.now item.now) }
{
    match item {
        TreeItem::Value(tree) => value_of_tree(alloc, columns, tree),
        TreeItem::Call(_, _) => Ok(None),
    }
}

/// A value of GROUP BY: the item that it names, or itself.
fn group_of(
    alloc: Global,
    columns: &[ColumnDef],
    items: &[Listed],
    tree: &Tree,
) -> Result<Option<Expr>, NoMemory>
    ensures { IfOk result (λ e. e ≡ group_of columns.now (value_named items.now tree.now) tree.now) }
{
    match value_named(items, tree) {
        Some(named) => value_of_item(alloc, columns, &named.item),
        None => value_of_tree(alloc, columns, tree),
    }
}

fn groups_of(
    alloc: Global,
    columns: &[ColumnDef],
    items: &[Listed],
    groups: &[Tree],
) -> Result<Option<List<Expr>>, NoMemory>
    ensures { IfOk result (λ es. es
        ≡ all_of (map (λ tree. group_of columns.now (value_named items.now tree) tree) groups.now)) }
{
    let mut found = Vec::with_capacity(alloc, groups.len())?;
    'groups: for tree in groups {
        match group_of(alloc, columns, items, tree)? {
            Some(value) => found.push(value)?,
            None => return Ok(None),
        }
    }
    Ok(Some(List::from_vec(found)))
}

/// What a key of ORDER BY compares: the item that it names, or itself.
fn key_item_of(
    alloc: Global,
    columns: &[ColumnDef],
    items: &[Listed],
    key: &TreeItem,
) -> Result<Option<Item>, NoMemory>
    ensures { IfOk result (λ i. i ≡ key_item_of columns.now (key_named items.now key.now) key.now) }
{
    match key_named(items, key) {
        Some(named) => item_of(alloc, columns, &named.item),
        None => item_of(alloc, columns, key),
    }
}

fn key_of(
    alloc: Global,
    columns: &[ColumnDef],
    items: &[Listed],
    key: &TreeOrder,
) -> Result<Option<OrderKey>, NoMemory>
    ensures { IfOk result (λ k. k ≡ key_of columns.now items.now key.now) }
{
    match key_item_of(alloc, columns, items, &key.item)? {
        Some(item) => Ok(Some(OrderKey {
            item,
            descending: key.descending,
        })),
        None => Ok(None),
    }
}

fn keys_of(
    alloc: Global,
    columns: &[ColumnDef],
    items: &[Listed],
    order: &[TreeOrder],
) -> Result<Option<List<OrderKey>>, NoMemory>
    ensures { IfOk result (λ ks. ks ≡ all_of (map (key_of columns.now items.now) order.now)) }
{
    let mut found = Vec::with_capacity(alloc, order.len())?;
    'keys: for key in order {
        match key_of(alloc, columns, items, key)? {
            Some(key) => found.push(key)?,
            None => return Ok(None),
        }
    }
    Ok(Some(List::from_vec(found)))
}
