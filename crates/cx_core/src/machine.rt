//! The core, and what it lends.
ghost use Rattle.std.specs.Prelude.{◌≡◌, ◌<◌, ℕ, false, length};
ghost use Rattle.cx_core_buffers.specs.Gathering.{piece_of};
ghost use Rattle.cx_core_events.specs.Events.{is_saving};
ghost use Rattle.cx_core.specs.Cores.{ahead_in, enabled_in};
ghost use Rattle.cx_core.specs.Hands.{last_number, HasScalar};

use crate::answers::Outcome;
use cx_chk::Checkpoint;
use cx_core_buffers::{Boards, Gathering};
use cx_core_events::Pace;
use cx_core_part::Items;
use cx_field::Patch;
use cx_plan::VarId;
use cx_text::List;
use std::marker::Model;

/// The parts of a run and its writer, between two events.
///
/// Each event is one operation of one part or one piece of work of the writer. The parts exchange messages by a wire, and give each
/// other their numbers for reductions by boards of the core.
#[derive(Drop)]
pub struct Core {
    pub(crate) pace: Pace,
    pub(crate) patches: Vec<Patch>,
    /// Those of each part.
    pub(crate) items: Vec<Items>,
    pub(crate) boards: Boards,
    pub(crate) gathering: Gathering,
    /// The end that the least of the parts that met one has met.
    pub(crate) met: Outcome,
    pub(crate) outcome: Outcome,
    /// How long each output is, by the variables that are written.
    pub(crate) lengths: Vec<u64>,
    /// The variable whose text came last.
    pub(crate) section: VarId,
}

impl Model for Core {
    ghost use Rattle.cx_core.specs.Cores.{Cores};

    ghost Value = { Cores };

    ghost view = { λ c. record {
      pace = c.pace;
      patches = c.patches.items;
      items = c.items.items;
      given = c.boards;
      buffers = c.gathering;
      met = c.met;
      outcome = c.outcome;
      lengths = c.lengths.items;
      section = c.section;
    } };
}

impl Core {
    /// How many events can happen.
    pub fn enabled(&self) -> u64
        ensures { result ≡ enabled_in self.now }
    {
        self.pace.enabled()
    }

    /// Whether the event of a number lies ahead: whether it is the operation of a part which stands behind the place of the checkpoint
    /// that the writer saves next. Such a part has handed in its piece of it. No event does where no checkpoint is to come, and never do
    /// all; `core_stands` says so of each place that a run comes to.
    pub fn ahead(&self, k: u64) -> bool
        requires { k < enabled_in self.now }
        ensures { result ≡ ahead_in self.now k }
    {
        self.pace.ahead(k)
    }

    /// Whether a checkpoint was handed in that isn't saved yet. Unless one was, no event lies ahead.
    pub fn is_saving(&self) -> bool
        ensures value { result ≡ is_saving self.now.pace }
        ensures none { result ≡ false → (k : ℕ) → ahead_in self.now k ≡ false }
    {
        self.pace.is_saving()
    }

    /// The numbers of the variable whose text came last: its whole current level, x fastest, or a scalar's number.
    pub fn piece(&self) -> &List<i64>
        requires { self.now.section.0 < length self.now.buffers.pieces }
        ensures { result.now ≡ piece_of self.now.buffers self.now.section }
    {
        self.gathering.piece(self.section)
    }

    /// The checkpoint that came last.
    pub fn state(&self) -> &Checkpoint
        ensures { result.now ≡ self.now.buffers.state }
    {
        self.gathering.state()
    }

    /// The checkpoint that came last; all else of the core is given up.
    pub fn into_state(self) -> Checkpoint
        ensures { result ≡ self.buffers.state }
    {
        self.gathering.into_state()
    }

    /// How the run has ended, or that it goes on.
    pub fn outcome(&self) -> &Outcome
        ensures { result.now ≡ self.now.outcome }
    {
        &self.outcome
    }

    /// How long each output is, by the variables that are written.
    pub fn lengths(&self) -> &[u64]
        ensures { result.now ≡ self.now.lengths }
    {
        &self.lengths
    }

    /// A scalar's number as the first part has it. All parts have it in a run that is done.
    pub fn last(&self, v: VarId) -> i64
        requires { HasScalar self.now v }
        ensures { result ≡ last_number self.now v }
    {
        match self.patches.first() {
            None => unreachable!(),
            Some(patch) => patch.scalar(v),
        }
    }
}
