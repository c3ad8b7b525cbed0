//! Boxes, their points, and a grid.

use cx_grid::{
    Box3, Point, Shape, clamp, contains, count, index_of, is_boundary, point_at, reach_box, rows,
    whole, wrap,
};
use std::test::Fail;
use test_cases::same;

const AT: [Point; 4] = [
    Point { x: -1, y: 0, z: 2 },
    Point { x: 0, y: 0, z: 2 },
    Point { x: -1, y: 1, z: 2 },
    Point { x: 0, y: 1, z: 2 },
];

#[test]
fn points_of_a_box_come_x_first(rt: HostRuntime) -> Result<(), Fail> {
    let b = Box3 {
        low: AT[0],
        high: Point { x: 1, y: 2, z: 3 },
    };
    let points = rows(&b).collect::<Vec<Point>>(rt.alloc())?;
    same(&"the points of a box", &points.as_slice(), &AT.as_slice())?;
    let found = (
        contains(&b, b.high),
        count(&b),
        point_at(&b, 2),
        index_of(&b, AT[3]),
    );
    same(
        &"its high corner, count, third point and last place",
        &found,
        &(false, 4, AT[2], 3),
    )?;
    let around = Box3 {
        low: Point { x: -1, y: 0, z: 0 },
        high: Point { x: 2, y: 1, z: 1 },
    };
    same(&"reach 1 in a row", &reach_box(1, 1), &around)
}

#[test]
fn a_sheet_is_periodic_in_y() -> Result<(), Fail> {
    let sheet = Shape {
        dims: 2,
        n: Point { x: 5, y: 3, z: 1 },
        ghost_: Point { x: 1, y: 1, z: 0 },
        periodic: [false, true, false],
    };
    let corner = Point { x: 4, y: -1, z: 0 };
    let found = (
        whole(&sheet).high,
        wrap(&sheet, corner),
        clamp(&sheet, corner),
    );
    let want = (
        sheet.n,
        Point { x: 4, y: 2, z: 0 },
        Point { x: 3, y: -1, z: 0 },
    );
    same(
        &"the whole sheet, a corner wrapped and clamped",
        &found,
        &want,
    )?;
    let inner = Point { x: 3, y: 0, z: 0 };
    let boundary = [is_boundary(&sheet, corner), is_boundary(&sheet, inner)];
    same(&"a corner and an inner point", &boundary, &[true, false])
}
