//! What an entry's names stand for.

use cx_plan::{Touch, VarId};
use cx_text::List;

/// What an entry's names stand for.
#[derive(Debug, Drop)]
pub(crate) struct Meaning {
    /// The scalar of its IF.
    pub test: Option<VarId>,
    /// The scalar of its WHILE.
    pub turn: Option<VarId>,
    /// The variables of its SYNC, each once.
    pub sync: List<VarId>,
    pub reads: List<Touch>,
    pub writes: List<Touch>,
}
