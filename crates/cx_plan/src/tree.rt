//! Plans: which items run, in which order, and under which tests.

use crate::VarId;
use cx_text::{Boxed, List, Text};

/// What a bin runs. The texts are paths of entries.
#[derive(Debug, Drop)]
pub enum Tree {
    /// One after another.
    Seq(List<Tree>),
    /// The item of this number.
    Call(u32),
    /// Level 0 of these variables is exchanged.
    Sync(List<VarId>, Text),
    /// What runs where the scalar isn't 0.
    If(VarId, Text, Boxed<Tree>),
    /// What runs again and again as long as the scalar isn't 0.
    While(VarId, Text, Boxed<Tree>),
}

/// What a run does.
#[derive(Debug, Drop)]
pub struct Schedule {
    /// One tree per bin: STARTUP, WRAGH, PARAMCHECK, BASEGRID, INITIAL, POSTINITIAL, PRESTEP, EVOL, POSTSTEP, CHECKPOINT,
    /// ANALYSIS, TERMINATE, SHUTDOWN; then four that aren't run, CPINITIAL, RECOVER_PARAMETERS, RECOVER_VARIABLES,
    /// POST_RECOVER_VARIABLES.
    pub bins: List<Tree>,
}
