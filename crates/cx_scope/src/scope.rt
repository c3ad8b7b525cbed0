//! Scopes: what the thorns of a bound configuration see.

ghost use Rattle.std.specs.Prelude.{◌≡◌, ◌<◌, None, length, IfOk};
ghost use Rattle.cx_bind.specs.Binding.{bind_fault};
ghost use Rattle.cx_scope.specs.Closures.{AreOf, thorns_in, sight_in};
ghost use Rattle.cx_text.specs.Telling.{Answers};
ghost use Rattle.cx_scope.specs.Sight.{IsSightOf};
ghost use Rattle.cx_scope.specs.Resolving.{resolve, group_of, ResolveAnswers, GroupAnswers};
ghost use Rattle.cx_scope.specs.declared.fault.ScopeFault.TheVariants as faults;

use crate::ScopeFault;
use crate::edges::{Tie, links};
use crate::groups::Groups;
use crate::names::{named_groups, named_variables};
use crate::tables::Tables;
use cx_bind::{Bound, Thorn};
use cx_plan::VarId;
use cx_sched::Ref;
use cx_text::{List, Memory};
use std::alloc::Global;
use std::marker::Model;

/// What the thorns of a bound configuration see. Contracts see the thorns, and who provides ancestors and friends of whom.
#[derive(Drop)]
pub struct Scope<'a> {
    bound: &'a Bound,
    tables: Tables,
}

impl<'a> Model for Scope<'a> {
    ghost use Rattle.std.specs.Prelude.{List, Bool};
    ghost use Rattle.cx_bind.specs.declared.thorns.Thorn.{Thorn};
    ghost use Rattle.cx_scope.specs.Closures.{AreOf};

    ghost Value = { List Thorn × (List (List Bool) × List (List Bool)) };

    ghost view = { λ s. (s.bound.now, (s.tables.ancestors, s.tables.friends)) };

    ghost invariant = { λ s. AreOf s.bound.now s.tables };
}

/// The tables of thorns.
fn tables(alloc: Global, thorns: &[Thorn]) -> Result<Tables, Memory>
    requires { bind_fault thorns.now ≡ None }
    ensures { IfOk result (AreOf thorns.now) }
{
    let groups = Groups::new(alloc, named_groups(alloc, thorns)?)?;
    let variables = named_variables(alloc, thorns)?;
    let ancestors = links(alloc, thorns, Tie::Inherits)?;
    let friends = links(alloc, thorns, Tie::Friends)?;
    Ok(Tables {
        groups,
        variables,
        ancestors,
        friends,
    })
}

impl<'a> Scope<'a> {
    /// Works out who sees what, once for all names.
    pub fn new(alloc: Global, bound: &'a Bound) -> Result<Self, Memory>
        ensures thorns { IfOk result (λ scope. thorns_in scope ≡ bound.now) }
        ensures tells { IfOk result (λ scope. IsSightOf bound.now (sight_in scope)) }
    {
        let tables = tables(alloc, bound.thorns().as_slice())?;
        Ok(Scope { bound, tables })
    }

    /// The variables and levels that a name means to a thorn, by the levels that are stored of each variable.
    ///
    /// A name means the first variable that has it among the thorn's own groups, then among the public groups of what it
    /// inherits, also through others, and then among the protected groups of its friends, each in the order of the
    /// variables' numbers. A past level has the variable's name with `_p` behind it, once for each level and before the
    /// bracket of a copy; the least level counts. Where no variable that the thorn sees has the name, it means the first
    /// such group, which stands for all its variables at level 0. (Cactus 4 Users' Guide, interface.ccl.)
    ///
    /// NotFound: no active thorn has the name. Hidden: one has it, and this one doesn't see it. NoStorage: a variable has
    /// no stored level. NoLevel: it has fewer.
    pub fn resolve(
        &self,
        alloc: Global,
        storage: &List<u8>,
        thorn: u32,
        name: &Ref,
    ) -> Result<List<(VarId, u8)>, ScopeFault>
        requires { thorn < length (thorns_in self.now) }
        ensures { Answers faults.Memory
            (resolve (thorns_in self.now) (sight_in self.now) storage.now thorn name.now)
            result }
    {
        self.tables
            .levels(alloc, storage.as_slice(), thorn as usize, name)
    }

    /// The variables of the group that a name means to a thorn, sought as `resolve` seeks groups.
    ///
    /// NotFound: no active thorn has a group of the name. Hidden: one has it, and this one doesn't see it.
    pub fn group_of(&self, alloc: Global, thorn: u32, name: &Ref) -> Result<List<VarId>, ScopeFault>
        requires { thorn < length (thorns_in self.now) }
        ensures { Answers faults.Memory
            (group_of (thorns_in self.now) (sight_in self.now) thorn name.now) result }
    {
        self.tables.group_members(alloc, thorn as usize, name)
    }
}

/// `Scope::resolve` for one name alone.
pub fn resolve(
    alloc: Global,
    bound: &Bound,
    storage: &List<u8>,
    thorn: u32,
    name: &Ref,
) -> Result<List<(VarId, u8)>, ScopeFault>
    requires { thorn < length bound.now }
    ensures { ResolveAnswers bound.now storage.now thorn name.now result }
{
    let scope = Scope::new(alloc, bound)?;
    scope.resolve(alloc, storage, thorn, name)
}

/// `Scope::group_of` for one name alone.
pub fn group_of(
    alloc: Global,
    bound: &Bound,
    thorn: u32,
    name: &Ref,
) -> Result<List<VarId>, ScopeFault>
    requires { thorn < length bound.now }
    ensures { GroupAnswers bound.now thorn name.now result }
{
    let scope = Scope::new(alloc, bound)?;
    scope.group_of(alloc, thorn, name)
}
