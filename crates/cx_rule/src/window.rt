//! The values around a point, read by read. All reads' values stand one after another.
ghost use Rattle.std.specs.Prelude.{◌≡◌, ◌≤◌, ◌<◌, ◌+◌, ◌++◌, ◌∷◌, [], ℕ, pos, length, slice_set, slice_index_or, IfOk, replicate, vec_capacity, ◌^◌};
ghost use Rattle.cx_grid.specs.Boxes.{IsIn, point_count, index_in};
ghost use Rattle.cx_grid.specs.Windows.{reach_box};
ghost use Rattle.cx_rule.specs.Seen.{shown, volume_of, volumes, HasRoom, value_of, place_of, place_among, IsOffset};
ghost use Rattle.cx_rule.specs.Single.{here};

use cx_grid::{Point, count, index_of, reach_box};
use cx_text::Memory;
use std::alloc::Global;
use std::marker::Model;

/// The values that a rule sees: for each read those at the offsets of at most its reach.
#[derive(Debug, Drop)]
pub struct Window {
    dims: u8,
    room: u32,
    reaches: Vec<u8>,
    values: Vec<i64>,
}

impl Model for Window {
    ghost use Rattle.std.specs.Prelude.{vec_capacity, ◌≤◌};
    ghost use Rattle.cx_rule.specs.Seen.{Shown, shown, IsWindow};

    ghost Value = { Shown };

    ghost view = { λ w. shown w.room w.dims w.reaches.items w.values.items };

    ghost invariant = { λ w. IsWindow (shown w.room w.dims w.reaches.items w.values.items)
        × (w.room ≤ vec_capacity w.reaches) × (w.room ≤ vec_capacity w.values) };
}

impl Window {
    /// Room for this many values. The window begins without reads, for one direction.
    pub fn new(alloc: Global, values: u32) -> Result<Self, Memory>
        ensures { IfOk result (λ w. w ≡ shown values 1 [] []) }
    {
        Ok(Window {
            dims: 1,
            room: values,
            reaches: Vec::with_capacity(alloc, values as usize)?,
            values: Vec::with_capacity(alloc, values as usize)?,
        })
    }

    /// Takes all reads out, and sets the number of directions.
    pub fn clear(&mut self, dims: u8)
        ensures { self.new ≡ shown self.old.room dims [] [] }
    {
        self.dims = dims;
        self.reaches.clear();
        self.values.clear();
    }

    /// Adds a read of this reach, with all its values 0. It asks for their room.
    pub fn add_read(&mut self, reach: u8)
        requires { HasRoom self.old reach }
        ensures { self.new ≡ record self.old {
          seen = record self.old.seen {
            reaches = self.old.seen.reaches ++ reach ∷ [];
            values = self.old.seen.values ++ replicate (volume_of self.old.seen.dims reach) (pos 0);
          };
        } }
    {
        let count = volume(self.dims, reach);
        add_zeros(&mut self.values, count);
        if self.reaches.push(reach).is_err() {
            unreachable!();
        }
    }

    /// The value of a read at an offset of at most its reach in each direction.
    pub fn value(&self, read: usize, offset: Point) -> i64
        requires read { read < length self.now.seen.reaches }
        requires offset { IsOffset self.now.seen read offset }
        ensures { result ≡ value_of self.now.seen read offset }
    {
        let place = place_of(self.dims, &self.reaches, read, offset);
        self.values[place]
    }

    /// The value of a read at the point itself.
    pub fn here(&self, read: usize) -> i64
        requires { read < length self.now.seen.reaches }
        ensures { result ≡ value_of self.now.seen read here }
    {
        self.value(read, Point { x: 0, y: 0, z: 0 })
    }

    /// Sets the value of a read at an offset of at most its reach in each direction.
    pub fn put(&mut self, read: usize, offset: Point, value: i64)
        requires read { read < length self.old.seen.reaches }
        requires offset { IsOffset self.old.seen read offset }
        ensures { self.new ≡ record self.old {
          seen = record self.old.seen {
            values = slice_set self.old.seen.values (place_of self.old.seen read offset) value;
          };
        } }
    {
        let place = place_of(self.dims, &self.reaches, read, offset);
        self.values[place] = value;
    }

    /// Sets all values: read after read, those of a read in the order of its offsets, x fastest.
    pub fn fill(&mut self, values: &[i64])
        requires { length values.now ≡ length self.old.seen.values }
        ensures { self.new ≡ record self.old {
          seen = record self.old.seen { values = values.now };
        } }
    {
        self.values.copy_from_slice(values);
    }
}

/// The place of a read's offset among all values.
#[tactic(auto, using(crate::proofs::Volumes::volumes_more))]
fn place_of(dims: u8, reaches: &[u8], read: usize, offset: Point) -> usize
    requires read { read < length reaches.now }
    requires offset { IsIn (reach_box dims (slice_index_or reaches.now read 0)) offset }
    requires fits { volumes dims reaches.now < 2 ^ 32 }
    ensures value { result ≡ place_among dims reaches.now read offset }
    ensures below { result < volumes dims reaches.now }
{
    let mut start = 0;
    'reads: for reach in &reaches[..read] {
        start += volume(dims, *reach);
    }
    start + index_of(&reach_box(dims, reaches[read]), offset)
}

/// The number of values of a read.
fn volume(dims: u8, reach: u8) -> usize
    ensures value { result ≡ volume_of dims reach }
    ensures few { result ≤ 133432831 }
{
    count(&reach_box(dims, reach))
}

/// Adds zeros, for which there is room.
fn add_zeros(values: &mut Vec<i64>, count: usize)
    requires { length values.old.items + count ≤ vec_capacity values.old }
    ensures items { values.new.items ≡ values.old.items ++ replicate count (pos 0) }
    ensures capacity { vec_capacity values.old ≤ vec_capacity values.new }
{
    let len = values.len() + count;
    if values.resize(len, 0).is_err() {
        unreachable!();
    }
}
