//! Windows, places, cells and meters.

use cx_grid::{Point, Shape};
use cx_rule::{Cells, Meter, Place, Window};
use cx_text::List;
use std::test::Fail;
use test_cases::same;

#[test]
fn a_window_keeps_its_reads_apart(rt: HostRuntime) -> Result<(), Fail> {
    let mut w = Window::new(rt.alloc(), 10)?;
    let here = Point { x: 0, y: 0, z: 0 };
    let before = Point { x: -1, y: 0, z: 0 };
    w.clear(2);
    w.add_read(0);
    w.add_read(1);
    w.put(0, here, 7);
    w.put(1, before, -3);
    let values = [w.value(0, here), w.value(1, here), w.value(1, before)];
    same(
        &"one read's value and two of another's",
        &values,
        &[7, 0, -3],
    )
}

#[test]
fn a_window_takes_all_its_values(rt: HostRuntime) -> Result<(), Fail> {
    let mut w = Window::new(rt.alloc(), 3)?;
    w.clear(1);
    w.add_read(1);
    w.fill(&[4, 5, 6]);
    let behind = Point { x: 1, y: 0, z: 0 };
    let values = [w.here(0), w.value(0, behind)];
    same(&"the point and the next one", &values, &[5, 6])
}

#[test]
fn a_place_has_its_parameters(rt: HostRuntime) -> Result<(), Fail> {
    let shape = Shape {
        dims: 2,
        n: Point { x: 5, y: 3, z: 1 },
        ghost_: Point { x: 1, y: 1, z: 0 },
        periodic: [false; 3],
    };
    let params = List::new(vec![in rt.alloc(); 8, -1]?);
    let place = Place::new(Point { x: 3, y: 1, z: 0 }, &shape, 6, &params);
    let found = (place.index(), place.param(1));
    same(
        &"a place's number and its second parameter",
        &found,
        &(8, -1),
    )
}

#[test]
fn cells_and_a_meter_keep_numbers(rt: HostRuntime) -> Result<(), Fail> {
    let mut cells = Cells::new(rt.alloc(), 2)?;
    cells.set(1, 4);
    let mut meter = Meter::new(&rt);
    meter.add(5);
    let found = (cells.get(0), cells.get(1), meter.count());
    same(&"two cells, and what is counted", &found, &(0, 4, 5))
}
