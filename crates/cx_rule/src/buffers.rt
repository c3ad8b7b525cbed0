//! Lists of numbers that are staged, one for each write.
ghost use Rattle.std.specs.Prelude.{◌≡◌, ◌<◌, ◌≤◌, ◌+◌, IfOk, pos, max, replicate, [], length, map, slice_index_or, slice_set, All};
ghost use Rattle.cx_grid.specs.Boxes.{IsBox, IsSmall, extent, point_count, numbers_in};
ghost use Rattle.cx_rule.specs.Buffers.{counted};
ghost use Rattle.cx_rule.specs.Runs.{fits_zone, SpendsOne};
ghost use Rattle.cx_rule.specs.Staging.{put_from, staged_at, no_numbers, cleared, mixed_at};

use crate::Cells;
use crate::commit::fits_zone;
use crate::levels::Level;
use crate::zone::{Zone, is_empty};
use cx_grid::Box3;
use cx_plan::VarInfo;
use cx_text::Memory;
use std::alloc::Global;
use std::marker::Model;

/// Numbers of which those up to a place count, and all others are 0, whatever stands there. So it takes no pass over them to set
/// all to 0. Contracts see what counts.
#[derive(Debug, Drop)]
pub(crate) struct Buffer {
    pub(crate) numbers: Level,
    pub(crate) end: usize,
}

impl Model for Buffer {
    ghost use Rattle.std.specs.Prelude.{List, ℤ};
    ghost use Rattle.cx_rule.specs.Buffers.{counted};

    ghost Value = { List ℤ };

    ghost view = { λ b. counted b.end b.numbers };
}

impl Buffer {
    /// So many numbers, all 0.
    fn zeros(alloc: Global, count: usize) -> Result<Self, Memory>
        ensures { IfOk result (λ buffer. buffer ≡ replicate count (pos 0)) }
    {
        Ok(Buffer {
            numbers: Level::zeros(alloc, count)?,
            end: 0,
        })
    }

    /// One number.
    fn number(&self, at: usize) -> i64
        requires { at < length self.now }
        ensures { result ≡ slice_index_or self.now at (pos 0) }
    {
        if at < self.end {
            self.numbers.as_slice()[at]
        } else {
            0
        }
    }

    /// Sets one number.
    fn set(&mut self, at: usize, value: i64)
        requires { at < length self.old }
        ensures { self.new ≡ slice_set self.old at value }
    {
        let end = self.numbers.end_of(at, 1);
        self.numbers.set_zeros(self.end, end);
        self.end = self.end.max(end);
        self.numbers.set(at, value);
    }

    /// Sets numbers from a place on.
    fn put_row(&mut self, at: usize, values: &[i64])
        requires { at + length values.now ≤ length self.old }
        ensures { self.new ≡ put_from at self.old values.now }
    {
        let end = self.numbers.end_of(at, values.len());
        self.numbers.set_zeros(self.end, at);
        self.numbers.put_row(at, values);
        self.end = self.end.max(end);
    }

    /// Sets all numbers to 0.
    fn clear(&mut self)
        ensures { self.new ≡ no_numbers self.old }
    {
        self.end = 0;
    }

    /// Whether the numbers at a zone's points are such as a variable can have.
    fn fits_zone(&mut self, b: &Box3, zone: &Zone, info: &VarInfo) -> bool
        requires ordered { IsBox b.now }
        requires small { IsSmall b.now }
        requires wide { 0 < extent b.now 0 }
        requires size { length self.old ≡ point_count b.now }
        ensures value { result ≡ fits_zone b.now zone.now self.old info.now.ctype }
        ensures same { self.new ≡ self.old }
    {
        if is_empty(zone) {
            return true;
        }
        let end = self.numbers.len();
        self.numbers.set_zeros(self.end, end);
        self.end = end;
        fits_zone(b, zone, self.numbers.as_slice(), info)
    }

    /// Sets a level at a zone's points to these numbers. There is one for each point of the box. What they are then is left open.
    fn give_zone(&mut self, level: &mut Level, b: &Box3, zone: &Zone)
        requires ordered { IsBox b.now }
        requires small { IsSmall b.now }
        requires wide { 0 < extent b.now 0 }
        requires room { length level.old ≡ point_count b.now }
        requires buffer { length self.old ≡ point_count b.now }
        ensures value { level.new
            ≡ numbers_in b.now (mixed_at b.now zone.now self.old level.old) }
        ensures count { length self.new ≡ length self.old }
    {
        if is_empty(zone) {
            return;
        }
        let end = self.numbers.len();
        self.numbers.set_zeros(self.end, end);
        self.end = end;
        level.take_zone(&mut self.numbers, b, zone);
    }
}

/// Sets a number of one of several lists.
fn set_number(buffers: &mut Vec<Buffer>, k: usize, at: usize, value: i64)
    requires buffer { k < length buffers.old.items }
    requires at { at < length (slice_index_or buffers.old.items k []) }
    ensures { buffers.new.items
        ≡ slice_set buffers.old.items k
        (slice_set (slice_index_or buffers.old.items k []) at value) }
{
    let buffer = &mut buffers[k];
    buffer.set(at, value);
}

/// Stages the numbers that a rule gives at a point, each in its write's buffer.
fn set_each(buffers: &mut Vec<Buffer>, at: usize, cells: &Cells, count: usize)
    requires count { count ≡ length cells.now }
    requires buffers { count ≤ length buffers.old.items }
    requires room { All (λ numbers. at < length numbers) buffers.old.items }
    ensures { buffers.new.items ≡ staged_at at buffers.old.items cells.now }
{
    'cells: for k in 0..count {
        set_number(buffers, k, at, cells.get(k));
    }
}

/// Empties all buffers, which keep their memory.
fn clear_all(buffers: &mut Vec<Buffer>)
    ensures { buffers.new.items ≡ cleared buffers.old.items }
{
    'buffers: for buffer in buffers.iter_mut() {
        buffer.clear();
    }
}

/// Lists of staged numbers. Contracts see the numbers.
#[derive(Debug, Drop)]
pub(crate) struct Buffers {
    pub(crate) buffers: Vec<Buffer>,
}

impl Model for Buffers {
    ghost use Rattle.std.specs.Prelude.{List, ℤ};

    ghost Value = { List (List ℤ) };

    ghost view = { λ all. all.buffers.items };
}

impl Buffers {
    /// So many buffers of so many numbers, all 0.
    pub(crate) fn zeros(alloc: Global, buffers: usize, numbers: usize) -> Result<Self, Memory>
        ensures { IfOk result (λ all. all ≡ replicate buffers (replicate numbers (pos 0))) }
    {
        let mut all = Vec::new(alloc);
        'buffers: for _ in 0..buffers {
            all.push(Buffer::zeros(alloc, numbers)?)?;
        }
        Ok(Buffers { buffers: all })
    }

    /// One number of a buffer.
    pub(crate) fn number(&self, k: usize, at: usize) -> i64
        requires buffer { k < length self.now }
        requires at { at < length (slice_index_or self.now k []) }
        ensures { result ≡ slice_index_or (slice_index_or self.now k []) at (pos 0) }
    {
        let buffer = &self.buffers[k];
        buffer.number(at)
    }

    /// Sets one number of a buffer.
    pub(crate) fn set(&mut self, k: usize, at: usize, value: i64)
        requires buffer { k < length self.old }
        requires at { at < length (slice_index_or self.old k []) }
        ensures { self.new ≡ slice_set self.old k
            (slice_set (slice_index_or self.old k []) at value) }
    {
        set_number(&mut self.buffers, k, at, value);
    }

    /// Sets numbers of a buffer from a place on.
    pub(crate) fn put_row(&mut self, k: usize, at: usize, values: &[i64])
        requires buffer { k < length self.old }
        requires room { at + length values.now ≤ length (slice_index_or self.old k []) }
        ensures { self.new ≡ slice_set self.old k
            (put_from at (slice_index_or self.old k []) values.now) }
    {
        let buffer = &mut self.buffers[k];
        buffer.put_row(at, values);
    }

    /// Sets one number of each of the first buffers, at the same place.
    pub(crate) fn set_each(&mut self, at: usize, cells: &Cells, count: usize)
        requires count { count ≡ length cells.now }
        requires buffers { count ≤ length self.old }
        requires room { All (λ numbers. at < length numbers) self.old }
        ensures { self.new ≡ staged_at at self.old cells.now }
    {
        set_each(&mut self.buffers, at, cells, count);
    }

    /// Sets all numbers to 0.
    pub(crate) fn clear(&mut self)
        ensures { self.new ≡ cleared self.old }
    {
        clear_all(&mut self.buffers);
    }

    /// Whether a buffer's numbers at a zone's points are such as a variable can have.
    pub(crate) fn fits_zone(&mut self, k: usize, b: &Box3, zone: &Zone, info: &VarInfo) -> bool
        requires buffer { k < length self.old }
        requires ordered { IsBox b.now }
        requires small { IsSmall b.now }
        requires wide { 0 < extent b.now 0 }
        requires size { length (slice_index_or self.old k []) ≡ point_count b.now }
        ensures value { result
            ≡ fits_zone b.now zone.now (slice_index_or self.old k []) info.now.ctype }
        ensures same { self.new ≡ self.old }
    {
        let buffer = &mut self.buffers[k];
        buffer.fits_zone(b, zone, info)
    }

    /// Sets a level at a zone's points to a buffer's numbers. The level and the buffer have one number for each point of the box.
    /// What the buffer has then is left open.
    pub(crate) fn give_zone(&mut self, k: usize, level: &mut Level, b: &Box3, zone: &Zone)
        requires buffer { k < length self.old }
        requires ordered { IsBox b.now }
        requires small { IsSmall b.now }
        requires wide { 0 < extent b.now 0 }
        requires room { length level.old ≡ point_count b.now }
        requires same { length (slice_index_or self.old k []) ≡ point_count b.now }
        ensures level { level.new ≡ numbers_in b.now
            (mixed_at b.now zone.now (slice_index_or self.old k []) level.old) }
        ensures buffers { SpendsOne k self.old self.new }
    {
        let buffer = &mut self.buffers[k];
        buffer.give_zone(level, b, zone);
    }
}
