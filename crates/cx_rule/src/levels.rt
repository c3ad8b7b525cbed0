//! Lists of numbers, one for each level of a variable, or for each write.
ghost use Rattle.std.specs.Prelude.{◌≡◌, ◌<◌, ◌≤◌, ◌+◌, IfOk, pos, max, replicate, [], length, map, slice_index_or, slice_set};
ghost use Rattle.cx_grid.specs.Boxes.{IsBox, IsSmall, extent, point_count, numbers_in};
ghost use Rattle.cx_rule.specs.Buffers.{counted};
ghost use Rattle.cx_rule.specs.Runs.{row_count, SetsRow, KeepsRow, SetsSpan, SpendsOne};
ghost use Rattle.cx_rule.specs.States.{rotated_levels};
ghost use Rattle.cx_rule.specs.Staging.{put_from, mixed_at};

use crate::buffers::Buffers;
use crate::runs::{Span, numbers_on, places, row_count, row_start, runs_at, width};
use crate::zone::{Zone, has_hole};
use cx_grid::Box3;
use cx_text::Memory;
use std::alloc::Global;
use std::marker::Model;

/// The numbers of one level. Contracts see the list.
#[derive(Debug, Drop)]
pub(crate) struct Level {
    pub(crate) values: Vec<i64>,
}

impl Model for Level {
    ghost use Rattle.std.specs.Prelude.{List, ℤ};

    ghost Value = { List ℤ };

    ghost view = { λ level. level.values.items };
}

impl Level {
    /// So many numbers, all 0.
    pub(crate) fn zeros(alloc: Global, count: usize) -> Result<Self, Memory>
        ensures { IfOk result (λ level. level ≡ replicate count (pos 0)) }
    {
        Ok(Level {
            values: vec![in alloc; 0; count]?,
        })
    }

    /// The numbers.
    pub(crate) fn as_slice(&self) -> &[i64]
        ensures { result.now ≡ self.now }
    {
        &self.values
    }

    /// Sets one number.
    pub(crate) fn set(&mut self, at: usize, value: i64)
        requires { at < length self.old }
        ensures { self.new ≡ slice_set self.old at value }
    {
        self.values[at] = value;
    }

    /// Sets numbers from a place on.
    pub(crate) fn put_row(&mut self, at: usize, values: &[i64])
        requires { at + length values.now ≤ length self.old }
        ensures { self.new ≡ put_from at self.old values.now }
    {
        let numbers = &mut self.values;
        let end = at + values.len();
        numbers[at..end].copy_from_slice(values);
    }

    /// How many numbers there are.
    pub(crate) fn len(&self) -> usize
        ensures { result ≡ length self.now }
    {
        self.values.len()
    }

    /// The place behind so many numbers from a place on.
    pub(crate) fn end_of(&self, at: usize, count: usize) -> usize
        requires { at + count ≤ length self.now }
        ensures { result ≡ at + count }
    {
        let _ = self.len();
        at + count
    }

    /// Sets the numbers from a place up to another one to 0, so that they count where those before them do.
    pub(crate) fn set_zeros(&mut self, from: usize, to: usize)
        requires { to ≤ length self.old }
        ensures value { counted (max from to) self.new ≡ counted from self.old }
        ensures count { length self.new ≡ length self.old }
    {
        'places: for at in from..to {
            self.set(at, 0);
        }
    }

    /// Sets the numbers at a zone's points to those of a buffer. There is one number for each point of the box. What the buffer
    /// has then is left open.
    pub(crate) fn take_zone(&mut self, buffer: &mut Level, b: &Box3, zone: &Zone)
        requires ordered { IsBox b.now }
        requires small { IsSmall b.now }
        requires wide { 0 < extent b.now 0 }
        requires room { length self.old ≡ point_count b.now }
        requires buffer { length buffer.old ≡ point_count b.now }
        ensures value { self.new
            ≡ numbers_in b.now (mixed_at b.now zone.now buffer.old self.old) }
        ensures count { length buffer.new ≡ length buffer.old }
    {
        if has_hole(zone) {
            self.put_zone(b, zone, buffer.as_slice());
        } else {
            buffer.keep_outside(b, zone, self.as_slice());
            swap(self, buffer);
        }
    }

    /// Sets the numbers at a zone's points to other ones, row by row. There is one number for each point of the box.
    fn put_zone(&mut self, b: &Box3, zone: &Zone, within: &[i64])
        requires ordered { IsBox b.now }
        requires small { IsSmall b.now }
        requires wide { 0 < extent b.now 0 }
        requires room { length self.old ≡ point_count b.now }
        requires within { length within.now ≡ point_count b.now }
        ensures { self.new ≡ numbers_in b.now (mixed_at b.now zone.now within.now self.old) }
    {
        'rows: for row in 0..row_count(b) {
            self.put_zone_row(b, zone, within, row);
        }
    }

    /// Sets the numbers at a zone's points of a row to other ones.
    fn put_zone_row(&mut self, b: &Box3, zone: &Zone, within: &[i64], row: usize)
        requires ordered { IsBox b.now }
        requires small { IsSmall b.now }
        requires wide { 0 < extent b.now 0 }
        requires room { length self.old ≡ point_count b.now }
        requires within { length within.now ≡ point_count b.now }
        requires row { row < row_count b.now }
        ensures { SetsRow b.now zone.now within.now row self.old self.new }
    {
        let start = row_start(b, row);
        let runs = runs_at(zone, b, start);
        self.put_span(within, start, runs.before);
        self.put_span(within, start, runs.behind);
    }

    /// Sets the numbers at all points outside of a zone to those of a level, row by row.
    fn keep_outside(&mut self, b: &Box3, zone: &Zone, level: &[i64])
        requires ordered { IsBox b.now }
        requires small { IsSmall b.now }
        requires wide { 0 < extent b.now 0 }
        requires room { length self.old ≡ point_count b.now }
        requires level { length level.now ≡ point_count b.now }
        ensures { self.new ≡ numbers_in b.now (mixed_at b.now zone.now self.old level.now) }
    {
        'rows: for row in 0..row_count(b) {
            self.keep_row_outside(b, zone, level, row);
        }
    }

    /// Sets the numbers at a row's points outside of a zone to those of a level.
    fn keep_row_outside(&mut self, b: &Box3, zone: &Zone, level: &[i64], row: usize)
        requires ordered { IsBox b.now }
        requires small { IsSmall b.now }
        requires wide { 0 < extent b.now 0 }
        requires room { length self.old ≡ point_count b.now }
        requires level { length level.now ≡ point_count b.now }
        requires row { row < row_count b.now }
        ensures { KeepsRow b.now zone.now level.now row self.old self.new }
    {
        let start = row_start(b, row);
        let runs = runs_at(zone, b, start);
        let end = width(b);
        self.put_span(level, start, places(0, runs.before.from));
        self.put_span(level, start, places(runs.before.to, runs.behind.from));
        self.put_span(level, start, places(runs.behind.to, end));
    }

    /// Sets the numbers of a span of a row to those that stand there in another list.
    fn put_span(&mut self, within: &[i64], start: usize, span: Span)
        requires order { span.from ≤ span.to }
        requires room { start + span.to ≤ length within.now }
        requires same { length self.old ≡ length within.now }
        ensures { SetsSpan within.now start span self.old self.new }
    {
        self.put_row(start + span.from, numbers_on(within, start, span));
    }
}

/// Two levels change places.
fn swap(a: &mut Level, b: &mut Level)
    ensures a { a.new ≡ b.old }
    ensures b { b.new ≡ a.old }
{
    std::mem::swap(&mut a.values, &mut b.values);
}

/// Levels of numbers, the current one first. Contracts see the lists of their numbers.
#[derive(Debug, Drop)]
pub(crate) struct Levels {
    pub(crate) levels: Vec<Level>,
}

impl Model for Levels {
    ghost use Rattle.std.specs.Prelude.{List, ℤ};

    ghost Value = { List (List ℤ) };

    ghost view = { λ all. all.levels.items };
}

impl Levels {
    /// So many levels of so many numbers, all 0.
    pub(crate) fn zeros(alloc: Global, levels: usize, numbers: usize) -> Result<Self, Memory>
        ensures { IfOk result (λ all. all ≡ replicate levels (replicate numbers (pos 0))) }
    {
        let mut all = Vec::new(alloc);
        'levels: for _ in 0..levels {
            all.push(Level::zeros(alloc, numbers)?)?;
        }
        Ok(Levels { levels: all })
    }

    /// The numbers of a level.
    pub(crate) fn get(&self, level: usize) -> &[i64]
        requires { level < length self.now }
        ensures { result.now ≡ slice_index_or self.now level [] }
    {
        self.levels[level].as_slice()
    }

    /// Sets one number of a level.
    pub(crate) fn set(&mut self, level: usize, at: usize, value: i64)
        requires level { level < length self.old }
        requires at { at < length (slice_index_or self.old level []) }
        ensures { self.new ≡ slice_set self.old level
            (slice_set (slice_index_or self.old level []) at value) }
    {
        let numbers = &mut self.levels[level];
        numbers.set(at, value);
    }

    /// Sets numbers of a level from a place on.
    pub(crate) fn put_row(&mut self, level: usize, at: usize, values: &[i64])
        requires level { level < length self.old }
        requires at { at + length values.now ≤ length (slice_index_or self.old level []) }
        ensures { self.new ≡ slice_set self.old level
            (put_from at (slice_index_or self.old level []) values.now) }
    {
        let numbers = &mut self.levels[level];
        numbers.put_row(at, values);
    }

    /// Each level becomes the next older one, and the oldest the current one.
    pub(crate) fn rotate(&mut self)
        ensures { self.new ≡ rotated_levels self.old }
    {
        if !self.levels.is_empty() {
            self.levels.rotate_right(1);
        }
    }

    /// Sets the numbers of a level at a zone's points to those of one of some buffers. The level and the buffer have one number for
    /// each point of the box. What the buffer has then is left open.
    pub(crate) fn take_zone(
        &mut self,
        level: usize,
        buffers: &mut Buffers,
        k: usize,
        b: &Box3,
        zone: &Zone,
    )
        requires level { level < length self.old }
        requires buffer { k < length buffers.old }
        requires ordered { IsBox b.now }
        requires small { IsSmall b.now }
        requires wide { 0 < extent b.now 0 }
        requires room { length (slice_index_or self.old level []) ≡ point_count b.now }
        requires same { length (slice_index_or buffers.old k []) ≡ point_count b.now }
        ensures level { self.new ≡ slice_set self.old level (numbers_in b.now
            (mixed_at b.now zone.now (slice_index_or buffers.old k [])
            (slice_index_or self.old level []))) }
        ensures buffers { SpendsOne k buffers.old buffers.new }
    {
        let numbers = &mut self.levels[level];
        buffers.give_zone(k, numbers, b, zone);
    }
}
