//! Jobs: configurations that are ready to run.

use crate::{Item, Schedule, Steered, VarId, VarInfo};
use cx_grid::Shape;
use cx_text::{List, Text};

/// How the grid is cut: per direction the widths of its parts, from low coordinates to high ones.
#[derive(Debug, Drop)]
pub struct Cuts {
    pub x: List<u32>,
    pub y: List<u32>,
    pub z: List<u32>,
}

/// How a run begins (`IO::recover` of IOUtil).
#[derive(Clone, Copy, Debug, PartialEq, Eq)]
pub enum Recover {
    /// Afresh; old checkpoints are given up.
    No,
    /// From the newest checkpoint, which must be there.
    Auto,
    /// From the newest checkpoint, or afresh where there is none.
    Autoprobe,
}

/// A configuration that is ready to run.
#[derive(Debug, Drop)]
pub struct Job {
    /// The grid.
    pub shape: Shape,
    /// The variables by their numbers, with their stored levels.
    pub vars: List<VarInfo>,
    pub items: List<Item>,
    /// The numbers that parameters of items get from an iteration on.
    pub steers: List<Steered>,
    /// What each bin runs.
    pub plan: Schedule,
    pub cut: Cuts,
    /// The last iteration, at most 1,000,000.
    pub itlast: u64,
    /// How many turns a WHILE takes at most, 1 to 1,000,000.
    pub while_limit: u64,
    /// How many iterations a part may be ahead of another one, at most 64.
    pub lead: u64,
    /// Whether the grid is cut anew by the weight of its points at each checkpoint.
    pub balance: bool,
    /// The grid variable whose numbers weigh the points.
    pub weight: Option<VarId>,
    /// What a number of the weighing variable counts for, at most 1,048,576.
    pub weight_factor: u64,
    /// Output is written at iterations that this divides; below 1 never.
    pub out_every: i64,
    /// The variables that are written, in rising order.
    pub out_vars: List<VarId>,
    /// Checkpoints are written at iterations that this divides; below 1 never.
    pub chk_every: i64,
    /// The number of the last checkpoint slot that is used, 1 to 7.
    pub keep: u32,
    /// Whether a checkpoint is written at the last iteration.
    pub on_end: bool,
    pub recover: Recover,
    /// The folder of the output.
    pub out_dir: Text,
    /// The folder of the checkpoints.
    pub chk_dir: Text,
    /// What a checkpoint's job must have in common with this one, as text.
    pub key: Text,
    /// The plan as text.
    pub plan_text: Text,
    /// The lines of the parameters that only say how and where a run is done.
    pub starred: Text,
}
