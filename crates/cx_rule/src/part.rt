//! The numbers of a part, by variable, level and point.
ghost use Rattle.std.specs.Prelude.{◌≡◌, ◌<◌, ◌≤◌, ◌+◌, ◌≤ℤ◌, ◌+ℤ◌, pos, [], length, map, slice_index_or, slice_set, IfOk};
ghost use Rattle.cx_grid.specs.Boxes.{IsIn, IsBox, IsSmall};
ghost use Rattle.cx_rule.specs.States.{level_of, scalar_of, with_level, with_scalar, rotate};
ghost use Rattle.cx_plan.specs.Lookups.{variable, is_scalar};
ghost use Rattle.cx_rule.specs.Patches.{bare, zeros, number_count, IsPart, IsPatch, IsStored, IsGridLevel, IsScalar, number_at, numbers_along, with_number, with_numbers, setup_in};
ghost use Rattle.cx_rule.specs.Staging.{put_from, with_row};

use crate::levels::Levels;
use cx_grid::{Box3, Point, Shape, count, index_of};
use cx_plan::{VarId, VarInfo};
use cx_text::{List, Memory};
use std::alloc::Global;
use std::marker::Model;

/// The numbers of a part, with no buffers beside them.
#[derive(Debug, Drop)]
pub(crate) struct Part {
    pub(crate) shape: Shape,
    pub(crate) owned: Box3,
    pub(crate) local: Box3,
    pub(crate) vars: List<VarInfo>,
    pub(crate) numbers: Vec<Levels>,
}

impl Model for Part {
    ghost use Rattle.cx_rule.specs.Patches.{PatchValue, IsPatch, bare};

    ghost Value = { PatchValue };

    ghost view = { λ p. bare p.shape p.owned p.local p.vars p.numbers.items };

    ghost invariant = { λ p. IsPatch (bare p.shape p.owned p.local p.vars p.numbers.items) };
}

impl Part {
    /// A part of these variables, all 0.
    pub(crate) fn new(
        alloc: Global,
        shape: &Shape,
        owned: &Box3,
        local: &Box3,
        vars: &List<VarInfo>,
    ) -> Result<Self, Memory>
        requires { IsPart shape.now owned.now local.now }
        ensures { IfOk result (λ part. part
            ≡ bare shape.now owned.now local.now vars.now (map (zeros local.now) vars.now)) }
    {
        Ok(Part {
            shape: *shape,
            owned: *owned,
            local: *local,
            vars: copies(alloc, vars.as_slice())?,
            numbers: zero_levels(alloc, vars.as_slice(), local)?,
        })
    }

    /// The shape of the whole grid.
    pub(crate) fn shape(&self) -> &Shape
        ensures value { result.now ≡ self.now.shape }
        ensures patch { IsPatch self.now }
    {
        &self.shape
    }

    /// The points that the part owns.
    pub(crate) fn owned(&self) -> &Box3
        ensures value { result.now ≡ self.now.owned }
        ensures patch { IsPatch self.now }
    {
        &self.owned
    }

    /// The points that the part has numbers of, ghost points included.
    pub(crate) fn local(&self) -> &Box3
        ensures value { result.now ≡ self.now.local }
        ensures patch { IsPatch self.now }
    {
        &self.local
    }

    /// What is known of a variable.
    pub(crate) fn info(&self, v: VarId) -> &VarInfo
        requires { v.0 < length self.now.vars }
        ensures value { result.now ≡ variable (setup_in self.now) v }
        ensures patch { IsPatch self.now }
    {
        &self.vars.as_slice()[v.0 as usize]
    }

    /// Whether a variable is a scalar.
    pub(crate) fn is_scalar(&self, v: VarId) -> bool
        requires { v.0 < length self.now.vars }
        ensures value { result ≡ is_scalar (setup_in self.now) v }
        ensures patch { IsPatch self.now }
    {
        self.info(v).scalar
    }

    /// The numbers of a stored level.
    pub(crate) fn level(&self, v: VarId, level: u8) -> &[i64]
        requires { IsStored self.now v level }
        ensures value { result.now ≡ level_of self.now.numbers v level }
        ensures count { length result.now
            ≡ number_count self.now.local (variable (setup_in self.now) v) }
    {
        numbers_of(&self.numbers, v.0 as usize, level as usize)
    }

    /// Sets the number at a place of a stored level.
    fn set_at(&mut self, v: VarId, level: u8, at: usize, value: i64)
        requires level { IsStored self.old v level }
        requires at { at < number_count self.old.local (variable (setup_in self.old) v) }
        ensures { self.new ≡ with_numbers self.old (with_level self.old.numbers v level
            (slice_set (level_of self.old.numbers v level) at value)) }
    {
        set_number(&mut self.numbers, v.0 as usize, level as usize, at, value);
    }

    /// Sets the numbers from a place of a stored level on.
    fn put_at(&mut self, v: VarId, level: u8, at: usize, values: &[i64])
        requires level { IsStored self.old v level }
        requires at { at + length values.now
            ≤ number_count self.old.local (variable (setup_in self.old) v) }
        ensures { self.new ≡ with_numbers self.old (with_level self.old.numbers v level
            (put_from at (level_of self.old.numbers v level) values.now)) }
    {
        put_numbers(&mut self.numbers, v.0 as usize, level as usize, at, values);
    }

    /// The number of a level of a grid variable at a local point.
    pub(crate) fn get(&self, v: VarId, level: u8, p: Point) -> i64
        requires level { IsGridLevel self.now v level }
        requires point { IsIn self.now.local p }
        ensures { result ≡ number_at self.now v level p }
    {
        let at = index_of(self.local(), p);
        self.level(v, level)[at]
    }

    /// Sets the number of a level of a grid variable at a local point.
    pub(crate) fn set(&mut self, v: VarId, level: u8, p: Point, value: i64)
        requires level { IsGridLevel self.old v level }
        requires point { IsIn self.old.local p }
        ensures { self.new ≡ with_number self.old v level p value }
    {
        let at = index_of(self.local(), p);
        self.set_at(v, level, at, value);
    }

    /// Sets the numbers of a level along x, from a local point on.
    pub(crate) fn put_row(&mut self, v: VarId, level: u8, low: Point, values: &[i64])
        requires level { IsGridLevel self.old v level }
        requires low { IsIn self.old.local low }
        requires high { (low.x +ℤ pos (length values.now)) ≤ℤ self.old.local.high.x }
        ensures { self.new ≡ with_row self.old v level low values.now }
    {
        let at = index_of(self.local(), low);
        self.put_at(v, level, at, values);
    }

    /// The number of a scalar.
    pub(crate) fn scalar(&self, v: VarId) -> i64
        requires { IsScalar self.now v }
        ensures { result ≡ scalar_of self.now.numbers v }
    {
        self.level(v, 0)[0]
    }

    /// Sets the number of a scalar.
    pub(crate) fn set_scalar(&mut self, v: VarId, value: i64)
        requires { IsScalar self.old v }
        ensures { self.new ≡ with_numbers self.old (with_scalar self.old.numbers v value) }
    {
        let _ = self.local();
        self.set_at(v, 0, 0, value);
    }

    /// Each variable's levels become the next older ones, and its oldest the current one.
    pub(crate) fn rotate(&mut self)
        ensures { self.new ≡ with_numbers self.old (rotate self.old.numbers) }
    {
        rotate_all(&mut self.numbers);
    }

    /// The numbers of a level along x, `n` of them from a local point on.
    pub(crate) fn row(&self, v: VarId, level: u8, low: Point, n: u32) -> &[i64]
        requires level { IsGridLevel self.now v level }
        requires low { IsIn self.now.local low }
        requires high { (low.x +ℤ pos n) ≤ℤ self.now.local.high.x }
        ensures { result.now ≡ numbers_along self.now v level low n }
    {
        let at = index_of(self.local(), low);
        let end = at + n as usize;
        &self.level(v, level)[at..end]
    }
}

/// The numbers of a level of a variable.
fn numbers_of(all: &[Levels], v: usize, level: usize) -> &[i64]
    requires var { v < length all.now }
    requires level { level < length (slice_index_or all.now v []) }
    ensures { result.now ≡ slice_index_or (slice_index_or all.now v []) level [] }
{
    let levels = &all[v];
    levels.get(level)
}

/// Sets a number of a level of a variable.
fn set_number(all: &mut Vec<Levels>, v: usize, level: usize, at: usize, value: i64)
    requires var { v < length all.old.items }
    requires level { level < length (slice_index_or all.old.items v []) }
    requires at { at < length (slice_index_or (slice_index_or all.old.items v []) level []) }
    ensures { all.new.items
        ≡ slice_set all.old.items v (slice_set (slice_index_or all.old.items v []) level
        (slice_set (slice_index_or (slice_index_or all.old.items v []) level []) at value)) }
{
    let levels = &mut all[v];
    levels.set(level, at, value);
}

/// Sets numbers of a level of a variable from a place on.
fn put_numbers(all: &mut Vec<Levels>, v: usize, level: usize, at: usize, values: &[i64])
    requires var { v < length all.old.items }
    requires level { level < length (slice_index_or all.old.items v []) }
    requires at { at + length values.now
        ≤ length (slice_index_or (slice_index_or all.old.items v []) level []) }
    ensures { all.new.items
        ≡ slice_set all.old.items v (slice_set (slice_index_or all.old.items v []) level
        (put_from at (slice_index_or (slice_index_or all.old.items v []) level []) values.now)) }
{
    let levels = &mut all[v];
    levels.put_row(level, at, values);
}

/// Makes each level of each variable the next older one.
fn rotate_all(all: &mut Vec<Levels>)
    ensures { all.new.items ≡ rotate all.old.items }
{
    'variables: for levels in all.iter_mut() {
        levels.rotate();
    }
}

/// Copies of what is known of variables.
fn copies(alloc: Global, vars: &[VarInfo]) -> Result<List<VarInfo>, Memory>
    ensures { IfOk result (λ copies. copies ≡ vars.now) }
{
    let mut all = List::empty(alloc);
    'vars: for info in vars {
        all.push(copy(alloc, info)?)?;
    }
    Ok(all)
}

/// A copy of what is known of a variable.
fn copy(alloc: Global, info: &VarInfo) -> Result<VarInfo, Memory>
    ensures { IfOk result (λ copy. copy ≡ info.now) }
{
    Ok(VarInfo {
        full: info.full.copy(alloc)?,
        ctype: info.ctype,
        scalar: info.scalar,
        levels: info.levels,
    })
}

/// The levels of variables over a box of so many points, all 0.
fn zero_levels(alloc: Global, vars: &[VarInfo], b: &Box3) -> Result<Vec<Levels>, Memory>
    requires ordered { IsBox b.now }
    requires small { IsSmall b.now }
    ensures { IfOk result (λ all. all.items ≡ map (zeros b.now) vars.now) }
{
    let mut all = Vec::new(alloc);
    'vars: for info in vars {
        all.push(Levels::zeros(alloc, info.levels as usize, number_count(b, info))?)?;
    }
    Ok(all)
}

/// How many numbers a level of a variable has over a box.
fn number_count(b: &Box3, info: &VarInfo) -> usize
    requires ordered { IsBox b.now }
    requires small { IsSmall b.now }
    ensures { result ≡ number_count b.now info.now }
{
    if info.scalar { 1 } else { count(b) }
}
