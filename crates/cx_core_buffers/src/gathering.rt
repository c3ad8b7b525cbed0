//! The writer's buffers, in which the pieces of all parts make a whole level or a checkpoint.
ghost use Rattle.std.specs.Prelude.{◌≡◌, ◌<◌, ◌≤◌, ◌+◌, ◌==◌, ◌∷◌, [], true, ℤ, List as ListOf, IfOk, length, map, replicate, slice_index_or, slice_set, pos, if◌then◌else◌, All};
ghost use Rattle.std.specs.List.{range_with_len};
ghost use Rattle.cx_grid.specs.Boxes.{point_count};
ghost use Rattle.cx_grid.specs.Grid.{IsShape, whole};
ghost use Rattle.cx_plan.specs.Lookups.{variable};
ghost use Rattle.cx_plan.specs.declared.variable.VarInfo.{VarInfo};
ghost use Rattle.cx_plan.specs.Regions.{is_among};
ghost use Rattle.cx_plan.specs.Setups.{setup_of};
ghost use Rattle.cx_plan.specs.Whole.{IsWhole, scalar_count, level_count};
ghost use Rattle.cx_rule.specs.States.{scalar_of};
ghost use Rattle.cx_model.specs.States.{number_count};
ghost use Rattle.cx_field.specs.Patches.{IsPatch, IsScalar};
ghost use Rattle.cx_core_buffers.specs.Checkpoints.{HoldsState, total, scalars_in, levels_in};
ghost use Rattle.law_parts.specs.Operations.{IsCurrent};
ghost use Rattle.cx_core_buffers.specs.Gathering.{fresh, fresh_piece, fresh_state, piece_of, piece_put, put_all, HasPiece, IsPatchOf, with_piece, with_state, with_name};
ghost use Rattle.cx_core_buffers.specs.Filling.{IsCurrentOf, scalar_put};

use crate::rows::{put_level, put_levels};
use crate::sizes::{
    level_count, level_total, points, scalar_count, scalar_total, zero_levels, zeros,
};
use cx_chk::Checkpoint;
use cx_field::Patch;
use cx_outputs::output_names;
use cx_plan::{Job, VarId, VarInfo};
use cx_text::{List, Memory, Text};
use std::alloc::Global;
use std::marker::Model;
use std::mem;

/// The writer's buffers: for each variable that is written its whole current level, a number for each point of the grid, x fastest,
/// or a scalar's number; and one checkpoint. They take no memory once they are made.
#[derive(Drop)]
pub struct Gathering {
    alloc: Global,
    pieces: Vec<List<i64>>,
    state: Checkpoint,
}

impl Model for Gathering {
    ghost use Rattle.cx_core_buffers.specs.Gathering.{Buffers};

    ghost Value = { Buffers };

    ghost view = { λ g. record { pieces = g.pieces.items; state = g.state } };
}

impl Gathering {
    /// Buffers of a job, all 0, and a checkpoint with this key.
    pub fn new(alloc: Global, job: &Job, key: Text) -> Result<Self, Memory>
        requires { IsWhole job.now }
        ensures { IfOk result (λ g. g ≡ fresh (setup_of job.now) key) }
    {
        Ok(Gathering {
            alloc,
            pieces: fresh_pieces(alloc, job)?,
            state: fresh_state(alloc, job, key)?,
        })
    }

    /// The whole current level of a variable, or a scalar's number.
    pub fn piece(&self, v: VarId) -> &List<i64>
        requires { v.0 < length self.now.pieces }
        ensures { result.now ≡ piece_of self.now v }
    {
        &self.pieces[v.0 as usize]
    }

    /// The checkpoint.
    pub fn state(&self) -> &Checkpoint
        ensures { result.now ≡ self.now.state }
    {
        &self.state
    }

    /// The checkpoint, without the other buffers.
    pub fn into_state(self) -> Checkpoint
        ensures { result ≡ self.state }
    {
        self.state
    }

    /// Sets a variable's current level to that of part `part` at the points that it owns; all other numbers stay. A scalar has the
    /// number of part 0, and stays as it is for any other one.
    pub fn put_piece(&mut self, job: &Job, part: u32, v: VarId, patch: &Patch)
        requires patch { IsPatchOf (setup_of job.now) patch.now }
        requires current { IsCurrent (setup_of job.now) v }
        requires room { HasPiece (setup_of job.now) self.old v }
        ensures { self.new ≡ with_piece (setup_of job.now) part patch.now v self.old }
    {
        let scalar = job.vars.as_slice()[v.0 as usize].scalar;
        put_piece(self.alloc, &mut self.pieces, scalar, part, v, patch);
    }

    /// Sets all levels of the checkpoint to those of part `part` at the points that it owns; all other numbers stay. Its scalars are
    /// those of part 0, and stay as they are for any other one.
    pub fn put_state(&mut self, job: &Job, part: u32, patch: &Patch)
        requires whole { IsWhole job.now }
        requires patch { IsPatchOf (setup_of job.now) patch.now }
        requires room { HoldsState (setup_of job.now) self.old.state }
        ensures { self.new ≡ with_state (setup_of job.now) part patch.now self.old }
    {
        let vars = job.vars.as_slice();
        let _ = patch.local();
        put_scalars(self.alloc, &mut self.state.scalars, part, vars, patch);
        put_grids(self.alloc, &mut self.state.levels, vars, patch);
    }

    /// Names the checkpoint: the iteration at whose place it is taken, and the lengths of the outputs there, by the variables that are
    /// written.
    pub fn name_state(&mut self, iteration: u64, lengths: &[u64])
        requires { length self.old.state.lengths ≡ length lengths.now }
        ensures { self.new ≡ with_name iteration lengths.now self.old }
    {
        self.state.iteration = iteration;
        set_lengths(self.alloc, &mut self.state.lengths, lengths);
    }
}

// ---- the buffers at first

/// How many numbers a variable's current level has.
fn number_count(job: &Job, v: VarId) -> usize
    requires shape { IsShape job.now.shape }
    requires var { v.0 < length job.now.vars }
    ensures { result ≡ number_count (setup_of job.now) (variable (setup_of job.now) v) }
{
    if job.vars.as_slice()[v.0 as usize].scalar {
        1
    } else {
        points(&job.shape)
    }
}

/// Whether a variable is among others.
fn is_among(v: VarId, vars: &[VarId]) -> bool
    ensures { result ≡ is_among v vars.now }
{
    vars.iter().any(|other| v.0 == other.0)
}

/// Numbers for the current level of a variable that is written, all 0.
fn fresh_piece(alloc: Global, job: &Job, v: VarId) -> Result<List<i64>, Memory>
    requires shape { IsShape job.now.shape }
    requires var { v.0 < length job.now.vars }
    ensures { IfOk result (λ piece. piece ≡ fresh_piece (setup_of job.now) v.0) }
{
    if is_among(v, job.out_vars.as_slice()) {
        zeros(alloc, number_count(job, v))
    } else {
        Ok(List::empty(alloc))
    }
}

/// For each variable that is written, a whole level or a scalar of zeros; for another one nothing.
fn fresh_pieces(alloc: Global, job: &Job) -> Result<Vec<List<i64>>, Memory>
    requires { IsWhole job.now }
    ensures { IfOk result (λ pieces. pieces.items
        ≡ map (fresh_piece (setup_of job.now)) (range_with_len 0 (length job.now.vars))) }
{
    let mut pieces = Vec::new(alloc);
    'vars: for v in 0..job.vars.len() {
        pieces.push(fresh_piece(alloc, job, VarId(v as u32))?)?;
    }
    Ok(pieces)
}

/// So many lengths, all 0.
fn no_lengths(alloc: Global, count: usize) -> Result<List<u64>, Memory>
    ensures { IfOk result (λ lengths. lengths ≡ replicate count 0) }
{
    Ok(List::new(vec![in alloc; 0; count]?))
}

/// A checkpoint into which nothing is put yet.
fn fresh_state(alloc: Global, job: &Job, key: Text) -> Result<Checkpoint, Memory>
    requires { IsWhole job.now }
    ensures { IfOk result (λ state. state ≡ fresh_state (setup_of job.now) key) }
{
    let vars = job.vars.as_slice();
    Ok(Checkpoint {
        version: 2,
        iteration: 0,
        key,
        names: output_names(alloc, job)?,
        lengths: no_lengths(alloc, job.out_vars.len())?,
        scalars: zeros(alloc, scalar_total(vars))?,
        levels: zero_levels(alloc, level_total(vars), points(&job.shape))?,
    })
}

// ---- a part's numbers

/// Sets a variable's current level to that of a part at the points that it owns. A scalar has the number of part 0.
fn put_piece(
    alloc: Global,
    pieces: &mut Vec<List<i64>>,
    scalar: bool,
    part: u32,
    v: VarId,
    patch: &Patch,
)
    requires there { v.0 < length pieces.old.items }
    requires stored { IsCurrentOf patch.now v scalar }
    requires room { length (slice_index_or pieces.old.items v.0 [])
        ≡ (if scalar then 1 else point_count (whole patch.now.shape)) }
    ensures { pieces.new.items ≡ slice_set pieces.old.items v.0
        (piece_put scalar part patch.now v (slice_index_or pieces.old.items v.0 [])) }
{
    let piece = &mut pieces[v.0 as usize];
    put_current(alloc, piece, scalar, part, v, patch);
}

/// Puts a part's share of level 0 of a variable into the whole; a scalar is taken from one part.
fn put_current(
    alloc: Global,
    piece: &mut List<i64>,
    scalar: bool,
    part: u32,
    v: VarId,
    patch: &Patch,
)
    requires stored { IsCurrentOf patch.now v scalar }
    requires room { length piece.old ≡ (if scalar then 1 else point_count (whole patch.now.shape)) }
    ensures { piece.new ≡ piece_put scalar part patch.now v piece.old }
{
    if scalar {
        set_scalar_of(alloc, piece, part, v, patch);
    } else {
        put_level(alloc, piece, patch, v, 0);
    }
}

/// Sets a list of one number to the scalar of part 0, or leaves it.
fn set_scalar_of(alloc: Global, piece: &mut List<i64>, part: u32, v: VarId, patch: &Patch)
    requires scalar { IsScalar patch.now v }
    requires room { length piece.old ≡ 1 }
    ensures { piece.new ≡ (if part == 0 then scalar_of patch.now.numbers v ∷ []
        else piece.old) }
{
    if part == 0 {
        set_number(alloc, piece, patch.scalar(v));
    }
}

/// Sets a list of one number.
fn set_number(alloc: Global, list: &mut List<i64>, number: i64)
    requires { length list.old ≡ 1 }
    ensures { list.new ≡ number ∷ [] }
{
    let mut numbers = mem::replace(list, List::empty(alloc)).into_vec();
    numbers[0] = number;
    *list = List::new(numbers);
}

/// Sets all of a list of lengths.
fn set_lengths(alloc: Global, list: &mut List<u64>, lengths: &[u64])
    requires { length list.old ≡ length lengths.now }
    ensures { list.new ≡ lengths.now }
{
    let mut numbers = mem::replace(list, List::empty(alloc)).into_vec();
    numbers.copy_from_slice(lengths);
    *list = List::new(numbers);
}

/// Sets the scalars to those of part 0, or leaves them.
fn put_scalars(alloc: Global, scalars: &mut List<i64>, part: u32, vars: &[VarInfo], patch: &Patch)
    requires held { IsPatch patch.now }
    requires vars { patch.now.vars ≡ vars.now }
    requires few { length vars.now ≤ 256 }
    requires one { All (λ (v : VarInfo). v.scalar ≡ true → v.levels ≤ 1) vars.now }
    requires room { length scalars.old ≡ total scalar_count vars.now }
    ensures { scalars.new ≡ (if part == 0 then scalars_in vars.now patch.now.numbers
        else scalars.old) }
{
    if part == 0 {
        let mut numbers = mem::replace(scalars, List::empty(alloc)).into_vec();
        set_scalars(&mut numbers, vars, patch);
        *scalars = List::new(numbers);
    }
}

/// Sets the scalars of a checkpoint to those of the part.
fn set_scalars(scalars: &mut Vec<i64>, vars: &[VarInfo], patch: &Patch)
    requires held { IsPatch patch.now }
    requires vars { patch.now.vars ≡ vars.now }
    requires few { length vars.now ≤ 256 }
    requires one { All (λ (v : VarInfo). v.scalar ≡ true → v.levels ≤ 1) vars.now }
    requires room { length scalars.old.items ≡ total scalar_count vars.now }
    ensures { scalars.new.items ≡ scalars_in vars.now patch.now.numbers }
{
    let mut place = 0;
    'vars: for v in 0..vars.len() {
        let numbers = scalar_count(&vars[v]);
        set_scalar(scalars, place, numbers, VarId(v as u32), patch);
        place += numbers as usize;
    }
}

/// Sets the number at a place to a scalar, if it has a number.
fn set_scalar(scalars: &mut Vec<i64>, at: usize, numbers: u8, v: VarId, patch: &Patch)
    requires scalar { 0 < numbers → IsScalar patch.now v }
    requires room { at + numbers ≤ length scalars.old.items }
    ensures { scalars.new.items ≡ scalar_put patch.now v at numbers scalars.old.items }
{
    if 0 < numbers {
        scalars[at] = patch.scalar(v);
    }
}

/// Sets the levels of a checkpoint to those of a part at the points that it owns.
fn put_grids(alloc: Global, levels: &mut List<List<i64>>, vars: &[VarInfo], patch: &Patch)
    requires held { IsPatch patch.now }
    requires vars { patch.now.vars ≡ vars.now }
    requires few { length vars.now ≤ 256 }
    requires room { length levels.old ≡ total level_count vars.now }
    requires points { All (λ (level : ListOf ℤ). length level ≡ point_count (whole patch.now.shape))
        levels.old }
    ensures { levels.new ≡ put_all patch.now (levels_in vars.now patch.now.numbers) levels.old }
{
    let mut all = mem::replace(levels, List::empty(alloc)).into_vec();
    put_variables(alloc, &mut all, vars, patch);
    *levels = List::new(all);
}

/// Puts a part's share of all stored levels into a checkpoint.
fn put_variables(alloc: Global, all: &mut Vec<List<i64>>, vars: &[VarInfo], patch: &Patch)
    requires held { IsPatch patch.now }
    requires vars { patch.now.vars ≡ vars.now }
    requires few { length vars.now ≤ 256 }
    requires room { length all.old.items ≡ total level_count vars.now }
    requires points { All (λ (level : ListOf ℤ). length level ≡ point_count (whole patch.now.shape))
        all.old.items }
    ensures { all.new.items
        ≡ put_all patch.now (levels_in vars.now patch.now.numbers) all.old.items }
{
    let mut place = 0;
    'vars: for v in 0..vars.len() {
        let levels = level_count(&vars[v]);
        put_levels(alloc, all, place, levels, patch, VarId(v as u32));
        place += levels as usize;
    }
}
