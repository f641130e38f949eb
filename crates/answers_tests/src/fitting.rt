//! What fits rows of some kinds.
use crate::given::query_of;
use pj_expr::{Cond, Expr, Item, Op, Query, fits_cond, fits_expr, fits_query, kind_of_expr};
use pj_value::{Kind, List, NoMemory};
use sqlite_items::Boxed;
use std::alloc::Global;
use std::test::Fail;

/// A number and a text.
const BOTH: &[Kind] = &[Kind::Num, Kind::Text];

/// A number alone.
const NUMBER: &[Kind] = &[Kind::Num];

/// A text alone.
const TEXT: &[Kind] = &[Kind::Text];

/// Whether the first item of a query has this kind over columns of these kinds.
fn has_kind(query: &Query, kinds: &[Kind], kind: Option<Kind>) -> bool {
    match query.items.as_slice().first() {
        Some(Item::Plain(expr)) => {
            kind_of_expr(expr, kinds) == kind && fits_expr(expr, kinds) == kind.is_some()
        }
        _ => false,
    }
}

/// Whether this is the kind of the item of a SELECT over columns of these kinds, and its condition, which compares
/// the item with a number, fits them where it is of numbers.
fn is_told(
    alloc: Global,
    select: &[u8],
    kinds: &[Kind],
    kind: Option<Kind>,
) -> Result<bool, NoMemory> {
    let query = query_of(alloc, select)?;
    let of_numbers = kind == Some(Kind::Num);
    Ok(has_kind(&query, kinds, kind) && fits_cond(&query.filter, kinds) == of_numbers)
}

/// Items beside a condition, columns, and the kinds of the items.
static KINDS: [(&[u8], &[Kind], Option<Kind>); 9] = [
    (b"SELECT k FROM t WHERE k = 0", BOTH, Some(Kind::Num)),
    (b"SELECT k FROM t WHERE k = 0", TEXT, Some(Kind::Text)),
    (b"SELECT s FROM t WHERE s = ''", NUMBER, None),
    (b"SELECT 1 + k FROM t WHERE 1 + k = 0", TEXT, None),
    (b"SELECT k + 1 FROM t WHERE k + 1 = 0", TEXT, None),
    (
        b"SELECT k + k FROM t WHERE k + k = 0",
        BOTH,
        Some(Kind::Num),
    ),
    (b"SELECT k * k FROM t WHERE k * k = 0", TEXT, None),
    (
        b"SELECT intDiv(k, 1) FROM t WHERE intDiv(k, 1) = 0",
        NUMBER,
        Some(Kind::Num),
    ),
    (b"SELECT k % 2 FROM t WHERE k % 2 = 0", TEXT, None),
];

#[test]
fn what_does_not_fit_is_told(rt: HostRuntime) -> Result<(), Fail> {
    for (select, kinds, kind) in &KINDS {
        assert!(rt; is_told(rt.alloc(), select, kinds, *kind)?, "{select:?}");
    }
    Ok(())
}

/// The number divided by 0. No statement has such a value.
fn divided_by_zero(alloc: Global) -> Result<Expr, NoMemory> {
    let number = Boxed::new(alloc, Expr::Column(0))?;
    Ok(Expr::IntDiv(number, 0))
}

/// Whether a value fits a number alone, by itself or in a comparison with a number.
fn fits_number(value: Expr) -> bool {
    let fits = kind_of_expr(&value, NUMBER).is_some() || fits_expr(&value, NUMBER);
    let same = Cond::Compare(Op::Eq, value, Expr::Num(0));
    fits || fits_cond(&same, NUMBER)
}

#[test]
fn no_value_is_divided_by_zero(rt: HostRuntime) -> Result<(), Fail> {
    let value = divided_by_zero(rt.alloc())?;
    assert!(rt; !fits_number(value));
    Ok(())
}

/// A query of a call and a column, which it groups by.
const GROUPED: &[u8] = b"SELECT count(), k FROM t GROUP BY k";

/// A query whose items are not grouped by.
const PLAIN: &[u8] = b"SELECT k, s FROM t WHERE k < 3 ORDER BY k DESC, s LIMIT 3";

/// Whether a query fits both columns, and not without its GROUP BY.
fn needs_group_by(alloc: Global, select: &[u8]) -> Result<bool, NoMemory> {
    let mut query = query_of(alloc, select)?;
    let fits = fits_query(&query, BOTH);
    query.groups = List::from_vec(Vec::new(alloc));
    Ok(fits && !fits_query(&query, BOTH))
}

#[test]
fn a_column_beside_a_call_needs_group_by(rt: HostRuntime) -> Result<(), Fail> {
    assert!(rt; needs_group_by(rt.alloc(), GROUPED)?);
    Ok(())
}

/// Whether the copy of a query has as many items, keys and groups as it.
fn is_whole_copy(query: &Query, copy: &Query) -> bool {
    copy.items.as_slice().len() == query.items.as_slice().len()
        && copy.groups.as_slice().len() == query.groups.as_slice().len()
        && copy.order.as_slice().len() == query.order.as_slice().len()
        && copy.limit == query.limit
}

/// Whether a query is copied whole.
fn is_copied_whole(alloc: Global, query: &Query) -> Result<bool, NoMemory> {
    let copy = query.duplicate(alloc)?;
    Ok(is_whole_copy(query, &copy))
}

/// Whether the query of a SELECT is.
fn select_is_copied_whole(alloc: Global, select: &[u8]) -> Result<bool, NoMemory> {
    let query = query_of(alloc, select)?;
    is_copied_whole(alloc, &query)
}

#[test]
fn queries_are_copied_whole(rt: HostRuntime) -> Result<(), Fail> {
    assert!(rt; select_is_copied_whole(rt.alloc(), PLAIN)?);
    assert!(rt; select_is_copied_whole(rt.alloc(), GROUPED)?);
    Ok(())
}
