//! The sweep of a rule over runs of a part's points along x.
ghost use Rattle.std.specs.Prelude.{◌≡◌, ◌≤◌, ◌<◌, ◌+◌, not, true, length, map, slice_index_or, slice_set, [], All, OnOk, OnErr};
ghost use Rattle.std.specs.List.{list_all};
ghost use Rattle.cx_plan.specs.Lookups.{is_scalar};
ghost use Rattle.cx_plan.specs.declared.item.Touch.{Touch};
ghost use Rattle.cx_rule.specs.Patches.{IsPatch, IsStored, setup_in};
ghost use Rattle.cx_rule.specs.Rows.{seen_row, FitsRow, LacksOne, IsRowPut, CanStageRow, StagesRow, CanLeaveOpen, LeavesOpen, IsOpened, IsRowItem};
ghost use Rattle.cx_rule.specs.Swept.{swept_zone, CanSweep, Sweeps, StagesZone};

use crate::buffers::{Buffer, Buffers};
use crate::levels::Level;
use crate::part::Part;
use crate::patch::Patch;
use crate::run::{Run, after, run_from};
use crate::sweep::{count_of, hole_from, region_of, sweep_rule};
use crate::zone::Zone;
use crate::{Meter, Overflow, Row, RowRule};
use cx_grid::{Point, index_of};
use cx_plan::{Item, ItemKind, Touch};

/// Computes an item of a rule at each point of its zone, as `sweep_rule` does, by rows where it can.
///
/// # Errors
///
/// `Overflow` as for `sweep_rule`.
pub(crate) fn sweep_rows<R: RowRule>(
    rule: &R,
    item: &Item,
    patch: &mut Patch,
    zone: &Zone,
    iteration: u64,
    meter: &mut Meter,
) -> Result<(), Overflow>
    requires can { CanSweep R.said item.now patch.old }
    requires zone { zone.now ≡ swept_zone patch.old item.now }
    ensures { Sweeps patch.old R.law item.now iteration patch.new meter.old meter.new result }
{
    let _ = patch.local();
    if goes_by_rows(&patch.part, item) {
        sweep_by_rows(rule, item, patch, zone, iteration, meter)
    } else {
        sweep_rule(rule, item, patch, zone, iteration, meter)
    }
}

/// Computes an item of a rule at each point of its zone, run by run.
fn sweep_by_rows<R: RowRule>(
    rule: &R,
    item: &Item,
    patch: &mut Patch,
    zone: &Zone,
    iteration: u64,
    meter: &mut Meter,
) -> Result<(), Overflow>
    requires can { CanSweep R.said item.now patch.old }
    requires rows { IsRowItem patch.old item.now }
    requires zone { zone.now ≡ swept_zone patch.old item.now }
    requires patch { IsPatch patch.old }
    ensures { Sweeps patch.old R.law item.now iteration patch.new meter.old meter.new result }
{
    stage_runs(rule, item, patch, zone, iteration, meter)?;
    patch.commit(item, zone)
}

/// Whether an item is a Cell item of one write which reads grid variables alone.
fn goes_by_rows(part: &Part, item: &Item) -> bool
    requires { All (λ (r : Touch). IsStored part.now r.var r.level) item.now.reads }
    ensures { result ≡ true → IsRowItem part.now item.now }
{
    match item.kind {
        ItemKind::Cell => {}
        _ => return false,
    }
    if item.writes.len() != 1 {
        return false;
    }
    are_grids(part, item.reads.as_slice())
}

/// Whether all reads are of grid variables.
fn are_grids(part: &Part, reads: &[Touch]) -> bool
    requires { All (λ (r : Touch). IsStored part.now r.var r.level) reads.now }
    ensures { result ≡ list_all (λ r. not (is_scalar (setup_in part.now) r.var)) reads.now }
{
    'reads: for read in reads {
        if part.is_scalar(read.var) {
            return false;
        }
    }
    true
}

/// Stages the numbers of an item's rule at each point of its zone, run by run.
fn stage_runs<R: RowRule>(
    rule: &R,
    item: &Item,
    patch: &mut Patch,
    zone: &Zone,
    iteration: u64,
    meter: &mut Meter,
) -> Result<(), Overflow>
    requires can { CanSweep R.said item.now patch.old }
    requires rows { IsRowItem patch.old item.now }
    requires zone { zone.now ≡ swept_zone patch.old item.now }
    requires patch { IsPatch patch.old }
    ensures { StagesZone patch.old R.law item.now iteration patch.new meter.old meter.new result }
{
    let count = count_of(&zone.all);
    let mut at = 0;
    let mut low = zone.all.low;
    'runs: while at < count {
        let skipped = hole_from(zone, low);
        if skipped > 0 {
            patch.leave_open(low, skipped);
            low = after(&zone.all, low, skipped);
            at += skipped;
            continue;
        }
        let run = run_from(patch.shape(), region_of(item), zone, low);
        patch.stage_rule_row(rule, item, &run, iteration)?;
        meter.add(run.count as u64);
        low = after(&zone.all, low, run.count as usize);
        at += run.count as usize;
    }
    Ok(())
}

impl Patch {
    /// Computes an item's rule along a run of local points and stages its numbers. No number of the part changes.
    fn stage_rule_row<R: RowRule>(
        &mut self,
        rule: &R,
        item: &Item,
        run: &Run,
        iteration: u64,
    ) -> Result<(), Overflow>
        requires { CanStageRow R.said item.now self.old run.now }
        ensures staged { StagesRow self.old R.law item.now iteration run.now self.new result }
        ensures patch { IsPatch self.old }
    {
        let at = index_of(self.part.local(), run.low);
        let row = Row::new(&self.part, item, run, iteration);
        self.staged.put_rule_row(rule, &row, at)
    }

    /// Leaves open which numbers are staged at so many local points along x. No number of the part changes.
    fn leave_open(&mut self, low: Point, count: usize)
        requires { CanLeaveOpen self.old low count }
        ensures left { LeavesOpen self.old low count self.new }
        ensures patch { IsPatch self.old }
    {
        let at = index_of(self.part.local(), low);
        self.staged.leave_open(at, count);
    }
}

impl Buffers {
    /// Puts a rule's numbers at the points of a row into the first buffer, from a place on.
    fn put_rule_row<R: RowRule>(&mut self, rule: &R, row: &Row, at: usize) -> Result<(), Overflow>
        requires fits { FitsRow R.said (seen_row row.now) }
        requires some { 0 < length self.old }
        requires room { at + row.now.count ≤ length (slice_index_or self.old 0 []) }
        ensures numbers { OnOk result (IsRowPut R.law (seen_row row.now) at
            (slice_index_or self.old 0 []) (slice_index_or self.new 0 [])) }
        ensures overflow { OnErr result (LacksOne R.law (seen_row row.now)) }
        ensures level { self.new ≡ slice_set self.old 0 (slice_index_or self.new 0 []) }
        ensures room { map length self.new ≡ map length self.old }
    {
        let buffer = &mut self.buffers[0];
        buffer.put_rule_row(rule, row, at)
    }

    /// Leaves open which numbers the first buffer has from a place on, so many.
    fn leave_open(&mut self, at: usize, count: usize)
        requires some { 0 < length self.old }
        requires room { at + count ≤ length (slice_index_or self.old 0 []) }
        ensures left { IsOpened at count (slice_index_or self.old 0 [])
            (slice_index_or self.new 0 []) }
        ensures level { self.new ≡ slice_set self.old 0 (slice_index_or self.new 0 []) }
        ensures room { map length self.new ≡ map length self.old }
    {
        let buffer = &mut self.buffers[0];
        buffer.leave_open(at, count);
    }
}

impl Buffer {
    /// Puts a rule's numbers at the points of a row, from a place on.
    fn put_rule_row<R: RowRule>(&mut self, rule: &R, row: &Row, at: usize) -> Result<(), Overflow>
        requires fits { FitsRow R.said (seen_row row.now) }
        requires room { at + row.now.count ≤ length self.old }
        ensures numbers { OnOk result (IsRowPut R.law (seen_row row.now) at self.old self.new) }
        ensures overflow { OnErr result (LacksOne R.law (seen_row row.now)) }
        ensures room { length self.new ≡ length self.old }
    {
        let end = self.numbers.end_of(at, row.count());
        self.numbers.set_zeros(self.end, at);
        self.numbers.put_rule_row(rule, row, at)?;
        self.end = self.end.max(end);
        Ok(())
    }

    /// Leaves open which numbers stand from a place on, so many: where those before them count, whatever stands there counts too.
    fn leave_open(&mut self, at: usize, count: usize)
        requires { at + count ≤ length self.old }
        ensures left { IsOpened at count self.old self.new }
        ensures room { length self.new ≡ length self.old }
    {
        if at == self.end {
            self.end = self.numbers.end_of(at, count);
        }
    }
}

impl Level {
    /// Puts a rule's numbers at the points of a row, from a place on.
    fn put_rule_row<R: RowRule>(&mut self, rule: &R, row: &Row, at: usize) -> Result<(), Overflow>
        requires fits { FitsRow R.said (seen_row row.now) }
        requires room { at + row.now.count ≤ length self.old }
        ensures numbers { OnOk result (IsRowPut R.law (seen_row row.now) at self.old self.new) }
        ensures overflow { OnErr result (LacksOne R.law (seen_row row.now)) }
        ensures room { length self.new ≡ length self.old }
    {
        let numbers = &mut self.values;
        let end = at + row.count();
        rule.row(row, &mut numbers[at..end])
    }
}
