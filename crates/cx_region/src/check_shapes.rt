//! Whether each item that is run has a shape of the table.

ghost use Rattle.std.specs.Prelude.{◌≡◌, ◌&&◌, not, option_map, IfOk};
ghost use Rattle.std.specs.Option.{option_copied};
ghost use Rattle.cx_text.specs.Telling.{Tells};
ghost use Rattle.cx_plan.specs.Setups.{setup_of};
ghost use Rattle.cx_plan.specs.Lookups.{variable, item};
ghost use Rattle.cx_plan.specs.Regions.{has_shape};
ghost use Rattle.cx_region.specs.Marks.{AreRunItems};
ghost use Rattle.cx_region.specs.Shapes.{lacks_shape, first_shapeless, first_written, no_shape, shape_fault};
ghost use Rattle.cx_plan.specs.Lists.{is_marked};

use crate::RegionFault;
use crate::called::called_items;
use cx_plan::{Item, Job, Touch};
use cx_region_flags::{full_name, has_shape};
use cx_text::{Memory, Text};
use std::alloc::Global;

/// Whether an item is marked; none beyond the end of the marks is.
fn is_marked(marks: &[bool], number: usize) -> bool
    ensures { result ≡ is_marked marks.now number }
{
    match marks.get(number) {
        Some(mark) => *mark,
        None => false,
    }
}

/// Whether an item is called and has no shape of the table.
fn lacks_shape(job: &Job, is_called: bool, item: &Item) -> bool
    ensures { result ≡ (is_called && not (has_shape (setup_of job.now) item.now)) }
{
    is_called && !has_shape(job, item)
}

/// The first item that is run and has no shape.
fn first_shapeless<'a>(job: &'a Job, called: &[bool]) -> Option<&'a Item>
    requires { AreRunItems job.now called.now }
    ensures { option_copied result
        ≡ option_map (item (setup_of job.now)) (first_shapeless (setup_of job.now)) }
{
    'items: for (number, item) in job.items.as_slice().iter().enumerate() {
        if lacks_shape(job, is_marked(called, number), item) {
            return Some(item);
        }
    }
    None
}

/// The full name of the first write.
fn first_written<'a>(job: &'a Job, writes: &[Touch]) -> &'a [u8]
    ensures { result.now ≡ first_written (setup_of job.now) writes.now }
{
    match writes.first() {
        Some(write) => full_name(job, write.var),
        None => &[],
    }
}

/// The fault of an item without a shape: its path and the first variable that it writes.
fn no_shape(alloc: Global, job: &Job, item: &Item) -> Result<RegionFault, Memory>
    ensures { IfOk result (λ fault. fault ≡ no_shape (setup_of job.now) item.now) }
{
    Ok(RegionFault::Shape(
        Text::from_slice(alloc, item.path.as_slice())?,
        Text::from_slice(alloc, first_written(job, item.writes.as_slice()))?,
    ))
}

/// Tests that each item that is run has a shape, in the order of items.
pub(crate) fn check_shapes(alloc: Global, job: &Job) -> Result<(), RegionFault>
    ensures { Tells RegionFault.Memory (shape_fault (setup_of job.now)) result }
{
    let called = called_items(alloc, job)?;
    match first_shapeless(job, called.as_slice()) {
        Some(item) => Err(no_shape(alloc, job, item)?),
        None => Ok(()),
    }
}
