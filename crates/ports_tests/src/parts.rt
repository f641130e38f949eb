use pj_index::KeyMarks;
use pj_part::*;
use pj_port::MemoryBlob;
use pj_value::*;
use std::alloc::Global;
use std::sync::Arc;
use std::test::*;

/// Sorted rows of no columns, without a row.
fn no_rows(alloc: Global) -> Result<Sorted<MemoryBlob>, NoMemory> {
    let firsts = Rows::new(alloc, &[])?;
    let last = List::from_vec(Vec::new(alloc));
    Ok(Sorted {
        rows: 0,
        index: KeyMarks { firsts, last },
        columns: List::from_vec(Vec::new(alloc)),
    })
}

fn piece(alloc: Global, id: PieceId) -> Result<Arc<Piece<MemoryBlob>>, NoMemory> {
    let sorted = no_rows(alloc)?;
    Ok(Arc::new(
        alloc,
        Piece {
            home: 1,
            id,
            sorted,
        },
    )?)
}

/// A part without a row, with copies of these projections.
pub(crate) fn part(
    alloc: Global,
    numbers: [u64; 4],
    ids: &[u64],
) -> Result<Part<MemoryBlob>, NoMemory> {
    let base = piece(alloc, PieceId::Base)?;
    let mut sides = Vec::new(alloc);
    'sides: for id in ids {
        sides.push(piece(alloc, PieceId::Side(*id))?)?;
    }
    let [min, max, level, field] = numbers;
    Ok(Part {
        number: 1,
        min,
        max,
        level,
        field,
        base,
        mask: None,
        sides: List::from_vec(sides),
    })
}

fn is_named(alloc: Global, numbers: [u64; 4], wanted: &[u8]) -> Result<bool, NoMemory> {
    let part = part(alloc, numbers, &[])?;
    let name = part_name(alloc, &part)?;
    Ok(name.as_slice() == wanted)
}

#[test]
fn a_part_has_a_name(rt: HostRuntime) -> Result<(), Fail> {
    for (numbers, wanted) in [
        ([2, 2, 0, 0], b"all_2_2_0".as_slice()),
        ([1, 3, 1, 0], b"all_1_3_1".as_slice()),
        ([1, 30, 12, 45], b"all_1_30_12_45".as_slice()),
        (
            [1, u64::MAX, 0, u64::MAX],
            b"all_1_18446744073709551615_0_18446744073709551615".as_slice(),
        ),
    ] {
        assert!(rt; is_named(rt.alloc(), numbers, wanted)?, "{numbers:?}");
    }
    Ok(())
}

#[test]
fn a_part_has_the_sides_that_are_listed(rt: HostRuntime) -> Result<(), Fail> {
    let part = part(rt.alloc(), [1, 1, 0, 0], &[3, 7])?;
    for (id, wanted) in [(3, true), (7, true), (0, false), (1, false)] {
        assert_eq!(rt; has_side(&part, id), wanted, "projection {id}");
    }
    Ok(())
}
