//! What names are looked up in.

ghost use Rattle.std.specs.Prelude.{◌≡◌, ◌<◌, length, slice_get, option_copied};
ghost use Rattle.cx_bind.specs.Variables.{variable_infos};
ghost use Rattle.cx_order.specs.Meanings.{is_scalar, meant};
ghost use Rattle.cx_order.specs.Worlds.{world_of, IsOfBound};
ghost use Rattle.cx_scope.specs.declared.fault.ScopeFault.TheVariants as faults;
ghost use Rattle.cx_text.specs.Telling.{Answers};

use cx_bind::Bound;
use cx_plan::{VarId, VarInfo};
use cx_sched::Ref;
use cx_scope::{Scope, ScopeFault};
use cx_text::List;
use std::alloc::Global;

/// What names are looked up in.
#[derive(Drop)]
pub(crate) struct Context<'a> {
    pub alloc: Global,
    pub bound: &'a Bound,
    /// What the bound thorns see.
    pub scope: &'a Scope<'a>,
    /// How many levels each variable stores.
    pub storage: &'a List<u8>,
}

impl<'a> Context<'a> {
    /// What is known of a variable.
    pub(crate) fn variable(&self, variable: VarId) -> Option<&'a VarInfo>
        ensures { option_copied result ≡ slice_get (variable_infos self.now.bound.now) variable.0 }
    {
        self.bound.variables().as_slice().get(variable.0 as usize)
    }

    /// Whether a variable is a scalar: one number, not one at each grid point.
    pub(crate) fn is_scalar(&self, variable: VarId) -> bool
        ensures { result ≡ is_scalar (world_of self.now) variable }
    {
        match self.variable(variable) {
            Some(info) => info.scalar,
            None => false,
        }
    }

    /// The levels that a name of a thorn means.
    pub(crate) fn meant(&self, thorn: u32, name: &Ref) -> Result<List<(VarId, u8)>, ScopeFault>
        requires scope { IsOfBound self.now }
        requires thorn { thorn < length self.now.bound.now }
        ensures { Answers faults.Memory (meant (world_of self.now) thorn name.now) result }
    {
        self.scope.resolve(self.alloc, self.storage, thorn, name)
    }
}
