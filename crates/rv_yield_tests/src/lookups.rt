//! What cells hold, by the code of yielders.

ghost use Rattle.std.specs.Prelude.{◌<◌};

use crate::programs::{Placed, REGION, truth_of, value_of};
use action_terms::{Sort, YKind};
use std::test::Fail;

/// What a cell holds.
const STORED: YKind = YKind::Stored {
    sort: Sort::Integer,
};

/// The cell that is given first.
const CELL: YKind = YKind::Given {
    sort: Sort::Cell,
    place: 1,
};

// The word of the cell whose unit begins at an offset.
fn cell_at(offset: u32) -> i64
    requires { offset < 1024 }
{
    (REGION + 8 * u64::from(offset)) as i64
}

// A cell's unit has a flag and a word: the word of an unset cell isn't read.
#[test]
fn cells(rt: HostRuntime) -> Result<(), Fail> {
    let set: [Placed; 4] = [(2, cell_at(500)), (500, 1), (501, -9), (502, 0)];
    let unset: [Placed; 3] = [(2, cell_at(500)), (500, 0), (501, -9)];
    let stored = [STORED, CELL];
    let sum = [YKind::Sum, STORED, CELL, YKind::Number(100000)];
    assert_eq!(rt; value_of(&rt, rt.alloc(), &stored, &set, 7)?, Some(-9));
    assert_eq!(rt; value_of(&rt, rt.alloc(), &stored, &unset, 7)?, None);
    assert_eq!(rt; value_of(&rt, rt.alloc(), &sum, &set, 7)?, Some(99991));
    assert_eq!(rt; value_of(&rt, rt.alloc(), &sum, &unset, 7)?, None);
    Ok(())
}

#[test]
fn a_cell_within_a_cell(rt: HostRuntime) -> Result<(), Fail> {
    let words: [Placed; 5] = [
        (2, cell_at(500)),
        (500, 1),
        (501, cell_at(600)),
        (600, 1),
        (601, 77),
    ];
    let inner = YKind::Stored { sort: Sort::Cell };
    let twice = [STORED, inner, CELL];
    let same = [YKind::Is, STORED, inner, CELL, YKind::Number(77)];
    assert_eq!(rt; value_of(&rt, rt.alloc(), &twice, &words, 7)?, Some(77));
    assert_eq!(rt; value_of(&rt, rt.alloc(), &twice, &words[..3], 7)?, None);
    assert_eq!(rt; truth_of(&rt, rt.alloc(), &same, &words)?, Some(true));
    Ok(())
}

// A condition that a cell holds, also under a negation.
#[test]
fn conditions_that_are_looked_up(rt: HostRuntime) -> Result<(), Fail> {
    let stored = YKind::Stored { sort: Sort::Truth };
    for value in [false, true] {
        let words: [Placed; 3] = [(2, cell_at(500)), (500, 1), (501, i64::from(value))];
        assert_eq!(rt;
            truth_of(&rt, rt.alloc(), &[stored, CELL], &words)?,
            Some(value)
        );
        assert_eq!(rt;
            truth_of(&rt, rt.alloc(), &[YKind::Not, stored, CELL], &words)?,
            Some(!value)
        );
    }
    let unset: [Placed; 2] = [(2, cell_at(500)), (501, 1)];
    assert_eq!(rt; truth_of(&rt, rt.alloc(), &[stored, CELL], &unset)?, None);
    Ok(())
}
