//! Which flags of a job's levels are set.

ghost use Rattle.std.specs.List.{list_all, range_with_len};
ghost use Rattle.std.specs.Prelude.{◌≡◌, ◌≤◌, ◌*◌, ◌∷◌, [], length, replicate, slice_index_or, slice_set, IfOk};
ghost use Rattle.cx_plan.specs.Setups.{setup_of};
ghost use Rattle.cx_plan.specs.Lookups.{no_variable};
ghost use Rattle.cx_plan.specs.Regions.{written, all_written, exchanged, rotated};
ghost use Rattle.cx_region_flags.specs.Cells.{none_set, none_set_of, cell, place, flags_in, Holds, cell_after};
ghost use Rattle.cx_region_flags.specs.AllPaths.{is_below, Meet};

use crate::flags::{ALL_SET, LevelFlags, NONE_SET, after, after_exchange, both, is_set, is_within};
use cx_plan::{Flag, Job, Touch, VarId};
use cx_text::Memory;
use std::alloc::Global;
use std::marker::Model;

/// No variable has more levels.
const MOST_LEVELS: usize = 8;

/// The place of a level's flags in the table.
fn place_of(variable: VarId, level: u8) -> usize
    ensures { result ≡ place variable level }
{
    MOST_LEVELS * variable.0 as usize + level as usize
}

/// How many levels the variable of this number has.
fn level_count(job: &Job, number: usize) -> u8
    ensures { result ≡ (slice_index_or job.now.vars number no_variable).levels }
{
    match job.vars.as_slice().get(number) {
        Some(info) => info.levels,
        None => 0,
    }
}

/// The flags of all levels, eight for each variable.
#[derive(Drop)]
pub struct FlagTable {
    cells: Vec<LevelFlags>,
}

impl Model for FlagTable {
    ghost use Rattle.std.specs.Prelude.{List};
    ghost use Rattle.cx_region_flags.specs.declared.flags.LevelFlags.{LevelFlags};

    ghost Value = { List LevelFlags };

    ghost view = { λ table. table.cells.items };
}

impl FlagTable {
    /// No flag is set.
    pub fn new(alloc: Global, job: &Job) -> Result<Self, Memory>
        requires { length job.now.vars ≤ 256 }
        ensures { IfOk result (λ table. table ≡ none_set_of (length job.now.vars)) }
    {
        let cells = vec![in alloc; NONE_SET; MOST_LEVELS * job.vars.len()]?;
        Ok(FlagTable { cells })
    }

    /// The flags of the level at a place; none is set beyond the end of the table.
    fn get(&self, place: usize) -> LevelFlags
        ensures { result ≡ cell self.now place }
    {
        match self.cells.get(place) {
            Some(flags) => *flags,
            None => NONE_SET,
        }
    }

    /// Sets the flags of the level at a place; nothing happens beyond the end of the table.
    fn put(&mut self, place: usize, flags: LevelFlags)
        ensures { self.new ≡ slice_set self.old place flags }
    {
        if place < self.cells.len() {
            self.cells[place] = flags;
        }
    }

    /// Whether a flag of a level is set.
    pub fn is_set(&self, variable: VarId, level: u8, flag: Flag) -> bool
        ensures { result ≡ flags_in self.now variable level flag }
    {
        is_set(self.get(place_of(variable, level)), flag)
    }

    /// Sets and clears the flags of a level as a write of it does.
    fn write(&mut self, job: &Job, write: &Touch)
        ensures { Holds self.old self.new
            (written (setup_of job.now) (flags_in self.old) write.now) }
    {
        if write.level as usize >= MOST_LEVELS {
            return;
        }
        let place = place_of(write.var, write.level);
        let flags = after(job, write, self.get(place));
        self.put(place, flags);
    }

    /// Notes these writes.
    pub(crate) fn write_all(&mut self, job: &Job, writes: &[Touch])
        ensures { Holds self.old self.new
            (all_written (setup_of job.now) writes.now (flags_in self.old)) }
    {
        'writes: for write in writes {
            self.write(job, write);
        }
    }

    /// Sets the ghost flags of a variable's level 0 as an exchange does.
    fn exchange_one(&mut self, variable: VarId)
        ensures { Holds self.old self.new (exchanged (variable ∷ []) (flags_in self.old)) }
    {
        let place = place_of(variable, 0);
        let flags = after_exchange(self.get(place));
        self.put(place, flags);
    }

    /// Notes that level 0 of these variables is exchanged.
    pub fn exchange(&mut self, variables: &[VarId])
        ensures { Holds self.old self.new (exchanged variables.now (flags_in self.old)) }
    {
        'variables: for variable in variables {
            self.exchange_one(*variable);
        }
    }

    /// The flags of a cell after rotation.
    fn newer(&self, job: &Job, place: usize) -> LevelFlags
        ensures { result ≡ cell_after (setup_of job.now) self.now place }
    {
        if level_count(job, place / MOST_LEVELS) <= 1 {
            return self.get(place);
        }
        if place % MOST_LEVELS == 0 {
            return NONE_SET;
        }
        self.get(place - 1)
    }

    /// Moves the flags to the next older level, where a variable has several.
    pub fn rotate(&mut self, job: &Job)
        ensures { Holds self.old self.new (rotated (setup_of job.now) (flags_in self.old)) }
    {
        let mut place = self.cells.len();
        while place > 0 {
            place -= 1;
            let flags = self.newer(job, place);
            self.put(place, flags);
        }
    }

    /// A copy of the table with the flags of all levels.
    pub fn copy(&self, alloc: Global) -> Result<Self, Memory>
        ensures { IfOk result (λ table. table ≡ self.now) }
    {
        let cells = Vec::from_slice(alloc, self.cells.as_slice())?;
        Ok(FlagTable { cells })
    }

    /// As many cells, with each flag set.
    pub(crate) fn all_set(&self, alloc: Global) -> Result<Self, Memory>
        ensures { IfOk result (λ table. table ≡ replicate (length self.now) ALL_SET) }
    {
        let cells = vec![in alloc; ALL_SET; self.cells.len()]?;
        Ok(FlagTable { cells })
    }

    /// Keeps the flags that are set in both.
    pub(crate) fn meet(&mut self, other: &FlagTable)
        ensures { Meet self.old other.now self.new }
    {
        let count = self.cells.len();
        for place in 0..count {
            let flags = both(self.get(place), other.get(place));
            self.put(place, flags);
        }
    }

    /// Whether each flag that is set here is set in the other.
    pub(crate) fn is_below(&self, other: &FlagTable) -> bool
        ensures { result ≡ is_below self.now other.now }
    {
        for place in 0..self.cells.len() {
            if !is_within(self.get(place), other.get(place)) {
                return false;
            }
        }
        true
    }
}
