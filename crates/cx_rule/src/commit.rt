//! Staged numbers set at once.
ghost use Rattle.std.specs.Prelude.{◌≡◌, ◌<◌, ◌≤◌, ◌||◌, not, is_some, map, take, length, replicate, slice_index_or, slice_set, [], pos, All, OnErr, true};
ghost use Rattle.std.specs.List.{list_all};
ghost use Rattle.cx_grid.specs.Boxes.{IsIn, IsBox, IsSmall, extent, point_count, points_in, numbers_in};
ghost use Rattle.cx_plan.specs.Lookups.{variable};
ghost use Rattle.cx_plan.specs.Regions.{are_distinct};
ghost use Rattle.cx_plan.specs.declared.item.ItemKind.{ItemKind};
ghost use Rattle.cx_plan.specs.declared.item.Touch.{Touch};
ghost use Rattle.cx_rule.specs.States.{level_of, with_level};
ghost use Rattle.cx_rule.specs.Sweeps.{fits, all_fit, levels_after, scalars_after};
ghost use Rattle.cx_rule.specs.Patches.{IsPatch, IsGridLevel, IsScalar, setup_in, values_in, with_numbers, with_buffers};
ghost use Rattle.cx_rule.specs.Staging.{fitting_at, staged_numbers, mixed_at, numbers_staged, levels_put, CanCommit, SetsBy, AreBuffers};
ghost use Rattle.cx_rule.specs.Runs.{row_count, row_points, fits_at, fits_zone, levels_fit, is_within, are_within, SpendsOne};

use crate::Overflow;
use crate::buffers::Buffers;
use crate::levels::Levels;
use crate::part::Part;
use crate::runs::{numbers_on, row_count, row_start, runs_at};
use crate::zone::Zone;
use cx_grid::{Box3, index_of};
use cx_plan::{Item, ItemKind, Touch, VarId, VarInfo};

impl Part {
    /// Sets what an item writes to what is staged, or nothing where a number leaves its type. What the buffers have is open
    /// then, but where nothing was set.
    pub(crate) fn commit(
        &mut self,
        item: &Item,
        staged: &mut Buffers,
        zone: &Zone,
    ) -> Result<(), Overflow>
        requires can { CanCommit (with_buffers self.old staged.old 0) item.now zone.now }
        requires buffers { AreBuffers self.old.local staged.old }
        ensures sets { SetsBy item.now.kind (with_buffers self.old staged.old 0) item.now
            zone.now self.old self.new result }
        ensures sizes { map length staged.new ≡ map length staged.old }
        ensures kept { OnErr result (staged.new ≡ staged.old) }
    {
        match item.kind {
            ItemKind::Scalar => self.commit_scalars(item, staged, zone),
            _ => self.commit_levels(item, staged, zone),
        }
    }

    /// Sets levels at the points of a zone.
    fn commit_levels(
        &mut self,
        item: &Item,
        staged: &mut Buffers,
        zone: &Zone,
    ) -> Result<(), Overflow>
        requires levels { All (λ (w : Touch). IsGridLevel self.old w.var w.level) item.now.writes }
        requires distinct { are_distinct item.now.writes ≡ true }
        requires writes { length item.now.writes ≤ length staged.old }
        requires buffers { AreBuffers self.old.local staged.old }
        ensures sets { SetsBy ItemKind.Cell (with_buffers self.old staged.old 0) item.now
            zone.now self.old self.new result }
        ensures sizes { map length staged.new ≡ map length staged.old }
        ensures kept { OnErr result (staged.new ≡ staged.old) }
    {
        if !self.fit(item.writes.as_slice(), staged, zone) {
            return Err(Overflow);
        }
        self.put_levels(item.writes.as_slice(), staged, zone);
        Ok(())
    }

    /// Sets scalars to what is staged at a zone's first point.
    fn commit_scalars(&mut self, item: &Item, staged: &Buffers, zone: &Zone) -> Result<(), Overflow>
        requires scalars { All (λ (w : Touch). IsScalar self.old w.var) item.now.writes }
        requires point { IsIn self.old.local zone.now.all.low }
        requires writes { length item.now.writes ≤ length staged.now }
        requires buffers { AreBuffers self.old.local staged.now }
        ensures { SetsBy ItemKind.Scalar (with_buffers self.old staged.now 0) item.now
            zone.now self.old self.new result }
    {
        let at = index_of(self.local(), zone.all.low);
        if !self.fits_at(item.writes.as_slice(), staged, at) {
            return Err(Overflow);
        }
        self.put_scalars(item.writes.as_slice(), staged, at);
        Ok(())
    }

    /// Whether what is staged for these writes at a place is in their variables' types.
    fn fits_at(&self, writes: &[Touch], staged: &Buffers, at: usize) -> bool
        requires vars { All (λ (w : Touch). w.var.0 < length self.now.vars) writes.now }
        requires writes { length writes.now ≤ length staged.now }
        requires place { at < point_count self.now.local }
        requires buffers { AreBuffers self.now.local staged.now }
        ensures { result ≡ all_fit (setup_in self.now) writes.now
            (numbers_staged staged.now (length writes.now) at) }
    {
        'writes: for (k, write) in writes.iter().enumerate() {
            if !fits(self.info(write.var), staged.number(k, at)) {
                return false;
            }
        }
        true
    }

    /// Whether all that is staged for these writes at the points of a zone is in their variables' types.
    fn fit(&self, writes: &[Touch], staged: &mut Buffers, zone: &Zone) -> bool
        requires vars { All (λ (w : Touch). w.var.0 < length self.now.vars) writes.now }
        requires writes { length writes.now ≤ length staged.old }
        requires buffers { AreBuffers self.now.local staged.old }
        ensures value { result ≡ levels_fit (setup_in self.now) self.now.local zone.now
            writes.now staged.old }
        ensures same { staged.new ≡ staged.old }
    {
        'writes: for (k, write) in writes.iter().enumerate() {
            if !staged.fits_zone(k, self.local(), zone, self.info(write.var)) {
                return false;
            }
        }
        true
    }

    /// Sets levels at the points of a zone to what is staged there. What the buffers have then is left open.
    fn put_levels(&mut self, writes: &[Touch], staged: &mut Buffers, zone: &Zone)
        requires levels { All (λ (w : Touch). IsGridLevel self.old w.var w.level) writes.now }
        requires distinct { are_distinct writes.now ≡ true }
        requires writes { length writes.now ≤ length staged.old }
        requires buffers { AreBuffers self.old.local staged.old }
        ensures value { self.new ≡ with_numbers self.old (levels_put self.old zone.now staged.old
            (length writes.now) 0 writes.now self.old.numbers) }
        ensures sizes { map length staged.new ≡ map length staged.old }
    {
        'writes: for k in 0..writes.len() {
            self.put_level(writes[k].var, writes[k].level, zone, staged, k);
        }
    }

    /// Sets a level at the points of a zone to what a buffer has there. What it has then is left open.
    fn put_level(&mut self, v: VarId, level: u8, zone: &Zone, staged: &mut Buffers, k: usize)
        requires level { IsGridLevel self.old v level }
        requires buffer { k < length staged.old }
        requires within { length (slice_index_or staged.old k []) ≡ point_count self.old.local }
        ensures patch { IsPatch self.old }
        ensures value { self.new ≡ with_numbers self.old (with_level self.old.numbers v level
            (numbers_in self.old.local (mixed_at self.old.local zone.now
            (slice_index_or staged.old k []) (level_of self.old.numbers v level)))) }
        ensures staged { SpendsOne k staged.old staged.new }
    {
        let local = self.local;
        take_zone(
            &mut self.numbers,
            v.0 as usize,
            level as usize,
            staged,
            k,
            &local,
            zone,
        );
    }

    /// Sets scalars to what is staged at a place.
    fn put_scalars(&mut self, writes: &[Touch], staged: &Buffers, at: usize)
        requires scalars { All (λ (w : Touch). IsScalar self.old w.var) writes.now }
        requires writes { length writes.now ≤ length staged.now }
        requires place { at < point_count self.old.local }
        requires buffers { AreBuffers self.old.local staged.now }
        ensures { self.new ≡ with_numbers self.old (scalars_after writes.now
            (numbers_staged staged.now (length writes.now) at) self.old.numbers) }
    {
        'writes: for k in 0..writes.len() {
            self.set_scalar(writes[k].var, staged.number(k, at));
        }
    }
}

/// Whether a variable can have a number.
fn fits(info: &VarInfo, number: i64) -> bool
    ensures { result ≡ fits info.now.ctype number }
{
    info.low() <= number && number <= info.high()
}

/// Whether the numbers at a zone's points are such as a variable can have.
pub(crate) fn fits_zone(b: &Box3, zone: &Zone, values: &[i64], info: &VarInfo) -> bool
    requires ordered { IsBox b.now }
    requires small { IsSmall b.now }
    requires wide { 0 < extent b.now 0 }
    requires size { length values.now ≡ point_count b.now }
    ensures { result ≡ fits_zone b.now zone.now values.now info.now.ctype }
{
    fits_rows(b, zone, values, info.low(), info.high())
}

/// Whether the numbers at a zone's points lie in a range.
fn fits_rows(b: &Box3, zone: &Zone, values: &[i64], low: i64, high: i64) -> bool
    requires ordered { IsBox b.now }
    requires small { IsSmall b.now }
    requires wide { 0 < extent b.now 0 }
    requires size { length values.now ≡ point_count b.now }
    ensures { result ≡ list_all (fits_at b.now zone.now values.now low high) (points_in b.now) }
{
    'rows: for row in 0..row_count(b) {
        if !fits_row(b, zone, values, row, low, high) {
            return false;
        }
    }
    true
}

/// Whether the numbers at a zone's points of a row lie in a range.
fn fits_row(b: &Box3, zone: &Zone, values: &[i64], row: usize, low: i64, high: i64) -> bool
    requires ordered { IsBox b.now }
    requires small { IsSmall b.now }
    requires wide { 0 < extent b.now 0 }
    requires size { length values.now ≡ point_count b.now }
    requires row { row < row_count b.now }
    ensures { result ≡ list_all (fits_at b.now zone.now values.now low high)
        (row_points b.now row) }
{
    let start = row_start(b, row);
    let runs = runs_at(zone, b, start);
    let before = numbers_on(values, start, runs.before);
    let behind = numbers_on(values, start, runs.behind);
    are_within(before, low, high) && are_within(behind, low, high)
}

/// Whether numbers lie in a range. The ends of all 64-bit numbers are constants, so that loop can be dropped.
fn are_within(values: &[i64], low: i64, high: i64) -> bool
    ensures { result ≡ are_within low high values.now }
{
    if low == i64::MIN && high == i64::MAX {
        all_within(values, i64::MIN, i64::MAX)
    } else if low == 0 && high == 255 {
        are_bytes(values)
    } else {
        all_within(values, low, high)
    }
}

/// Whether numbers are bytes: none has a bit beyond the lowest eight, which a negative one has too.
fn are_bytes(values: &[i64]) -> bool
    ensures { result ≡ are_within (pos 0) (pos 255) values.now }
{
    let mut bits = 0;
    'values: for value in values {
        bits |= value.cast_unsigned();
    }
    bits < 256
}

/// Whether numbers lie in a range, with no way out before the last one: so many are tested at a time.
fn all_within(values: &[i64], low: i64, high: i64) -> bool
    ensures { result ≡ are_within low high values.now }
{
    let mut all = true;
    'values: for value in values {
        all = is_within(*value, low, high) && all;
    }
    all
}

/// Whether a number is in a range, both ends included.
fn is_within(value: i64, low: i64, high: i64) -> bool
    ensures { result ≡ is_within low high value }
{
    low <= value && value <= high
}

/// Sets the numbers of a level of a variable at a zone's points to those of a buffer.
fn take_zone(
    all: &mut Vec<Levels>,
    v: usize,
    level: usize,
    buffers: &mut Buffers,
    k: usize,
    b: &Box3,
    zone: &Zone,
)
    requires var { v < length all.old.items }
    requires level { level < length (slice_index_or all.old.items v []) }
    requires buffer { k < length buffers.old }
    requires ordered { IsBox b.now }
    requires small { IsSmall b.now }
    requires wide { 0 < extent b.now 0 }
    requires room { length (slice_index_or (slice_index_or all.old.items v []) level [])
        ≡ point_count b.now }
    requires same { length (slice_index_or buffers.old k []) ≡ point_count b.now }
    ensures levels { all.new.items
        ≡ slice_set all.old.items v (slice_set (slice_index_or all.old.items v []) level
        (numbers_in b.now (mixed_at b.now zone.now (slice_index_or buffers.old k [])
        (slice_index_or (slice_index_or all.old.items v []) level [])))) }
    ensures buffers { SpendsOne k buffers.old buffers.new }
{
    let levels = &mut all[v];
    levels.take_zone(level, buffers, k, b, zone);
}
