//! Laws of chosen widths. These functions do nothing when run: their clauses are the laws.
ghost use Rattle.std.specs.Prelude.{ℕ, List, ◌≤◌};
ghost use Rattle.cx_grid.specs.declared.shapes.Shape.{Shape};
ghost use Rattle.cx_plan.specs.declared.job.Cuts.{Cuts};
ghost use Rattle.cx_plan.specs.declared.job.Job.{Job};
ghost use Rattle.cx_plan.specs.Whole.{IsWhole};
ghost use Rattle.cx_chk.specs.declared.checkpoint.Checkpoint.{Checkpoint};
ghost use Rattle.cx_cut.specs.Faults.{parts_of, points};
ghost use Rattle.cx_balance.specs.Choosing.{share_end, IsShareEnd};
ghost use Rattle.cx_balance.specs.Cutting.{CutsAgain};
ghost use Rattle.cx_balance.specs.Weighing.{HasWeight, HoldsLevels};

/// A share ends after the fewest planes that weigh it.
pub fn share_ends()
    ensures { (planes : List ℕ) (parts j : ℕ) → j ≤ parts
        → IsShareEnd planes parts j (share_end planes parts j) }
{}

/// Chosen widths cut a grid that can be cut into as many parts.
pub fn chosen_cuts()
    ensures { (s : Shape) (own : Cuts) → ((d : ℕ) → 1 ≤ points (parts_of s own) d)
        → CutsAgain s own }
{}

/// A checkpoint that holds the levels of all grid variables has the numbers that weigh the points.
pub fn checkpoints_weigh()
    ensures { (job : Job) (state : Checkpoint) → IsWhole job → HoldsLevels job state
        → HasWeight job state }
{}
