// A program and points that were worked out by hand.
use crate::programs::{costs_of, program_of, push_rows};
use mov_base::List;
use row_program::{Feature, Limit, Point, RowList, holds_at, is_program, point_cost};
use std::alloc::Global;
use std::process::Abort;
use std::test::Fail;

fn point(alloc: Global, m: u32, f: u32, den: u32) -> Result<Point, Fail> {
    if den == 0 {
        return Err(Fail::from("no denominator"));
    }
    let whole = List::from_slice(alloc, &[m as u64, f as u64])?;
    Ok(Point {
        whole,
        den: den as u64,
    })
}

/// What meets the rows -1 + 2f and 1 + 10m - 2f, and what it costs.
fn points_of_two_rows(rt: &impl Abort, alloc: Global) -> Result<(), Fail> {
    let program = program_of(alloc, "1 0", "-1 0 2, 1 10 -2")?;
    for (m, f, den, holds) in [(0, 1, 2, true), (0, 1, 1, false), (1, 10, 10, true)] {
        let point = point(alloc, m, f, den)?;
        assert_eq!(rt; point.whole.len(), program.costs.len());
        assert_eq!(rt; holds_at(&program, &point), holds);
        assert_eq!(rt; point_cost(&program, &point), m as u128);
    }
    Ok(())
}

/// The greatest constant and factor make a row, a constant past it doesn't; rows are copied.
fn bounds_of_rows(rt: &impl Abort, alloc: Global) -> Result<(), Fail> {
    let costs = costs_of(alloc, "1 0")?;
    let mut rows: RowList = List::new(alloc);
    push_rows(alloc, &mut rows, "-1 0 2, 2147483647 0 -2147483647")?;
    assert!(rt; is_program(&costs, &rows.copy()?, 2));
    push_rows(alloc, &mut rows, "-2147483648 0 0")?;
    assert!(rt; !is_program(&costs, &rows, 2));
    Ok(())
}

#[test]
fn programs_and_points(rt: HostRuntime) -> Result<(), Fail> {
    points_of_two_rows(&rt, rt.alloc())?;
    bounds_of_rows(&rt, rt.alloc())?;
    let limit = Limit {
        feature: Feature::Arc(0, 2),
        at_most: true,
        value: 7,
    };
    assert_ne!(rt; limit.feature, Feature::From(2));
    Ok(())
}
