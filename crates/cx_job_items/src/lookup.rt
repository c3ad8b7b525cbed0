//! What the names of a routine mean to a thorn.

ghost use Rattle.std.specs.Prelude.{◌≡◌, ◌<◌, ◌↔◌, length, Ok, IsTrue, IfOk};
ghost use Rattle.cx_scope.specs.declared.fault.ScopeFault.TheVariants as faults;
ghost use Rattle.cx_order.specs.Meanings.{meant};
ghost use Rattle.cx_job_items.specs.Matching.{only_level, param_number, numbers_of};
ghost use Rattle.cx_job_items.specs.Lookups.{world_of, level_in, touch_in, touches_in, IsOfBound, HasThorn};

use crate::refs::ref_in;
use crate::starred::is_starred;
use cx_bind::Bound;
use cx_plan::{Touch, VarId};
use cx_rule::Want;
use cx_sched::Ref;
use cx_scope::{Scope, ScopeFault};
use cx_text::{List, Memory, Text};
use cx_values::Values;
use std::alloc::Global;

/// What a thorn's names are looked up in.
#[derive(Drop)]
pub(crate) struct Lookup<'a> {
    pub bound: &'a Bound,
    /// What the bound thorns see.
    pub scope: &'a Scope<'a>,
    /// How many levels each variable stores.
    pub storage: &'a List<u8>,
    /// The thorn's number; none where it isn't bound.
    pub thorn: Option<u32>,
}

/// Whether a name couldn't be looked up because memory ran out.
fn is_memory(fault: &ScopeFault) -> bool
    ensures { IsTrue result ↔ (fault.now ≡ faults.Memory) }
{
    matches!(fault, ScopeFault::Memory)
}

/// The level that a name means, if it means exactly one.
fn only_level(levels: &[(VarId, u8)]) -> Option<(VarId, u8)>
    ensures { result ≡ only_level (Ok levels.now) }
{
    match levels {
        [level] => Some(*level),
        _ => None,
    }
}

impl<'a> Lookup<'a> {
    /// The one level that a name means to a thorn.
    fn meant(&self, alloc: Global, thorn: u32, name: &Ref) -> Result<Option<(VarId, u8)>, Memory>
        requires scope { IsOfBound self.now }
        requires thorn { thorn < length self.now.bound.now }
        ensures { IfOk result (λ l. l ≡ only_level (meant (world_of self.now) thorn name.now)) }
    {
        match self.scope.resolve(alloc, self.storage, thorn, name) {
            Ok(levels) => Ok(only_level(levels.as_slice())),
            Err(fault) => {
                if is_memory(&fault) {
                    return Err(Memory);
                }
                Ok(None)
            }
        }
    }

    /// The one level that a text names.
    fn level_of(&self, alloc: Global, name: &[u8]) -> Result<Option<(VarId, u8)>, Memory>
        requires scope { IsOfBound self.now }
        requires thorn { HasThorn self.now }
        ensures { IfOk result (λ level. level ≡ level_in self.now name.now) }
    {
        match self.thorn {
            Some(thorn) => self.meant(alloc, thorn, &ref_in(alloc, name)?),
            None => Ok(None),
        }
    }

    /// What a routine reads or writes by a name that means one level.
    pub(crate) fn touch_of(&self, alloc: Global, want: &Want) -> Result<Option<Touch>, Memory>
        requires scope { IsOfBound self.now }
        requires thorn { HasThorn self.now }
        ensures { IfOk result (λ touch. touch ≡ touch_in self.now want.now) }
    {
        match self.level_of(alloc, want.name.as_slice())? {
            Some((var, level)) => Ok(Some(Touch {
                var,
                level,
                region: want.region,
                reach: want.reach,
            })),
            None => Ok(None),
        }
    }

    /// What a routine reads or writes, if each of the names means one level.
    pub(crate) fn touches_of(
        &self,
        alloc: Global,
        wants: &[Want],
    ) -> Result<Option<List<Touch>>, Memory>
        requires scope { IsOfBound self.now }
        requires thorn { HasThorn self.now }
        ensures { IfOk result (λ touches. touches ≡ touches_in self.now wants.now) }
    {
        let mut touches = List::empty(alloc);
        'wants: for want in wants {
            match self.touch_of(alloc, want)? {
                Some(touch) => touches.push(touch)?,
                None => return Ok(None),
            }
        }
        Ok(Some(touches))
    }
}

/// The number of a parameter, which a starred one doesn't have.
pub(crate) fn param_number(values: &Values, name: &Text) -> Option<i64>
    ensures { result ≡ param_number values.now name.now }
{
    if is_starred(name.as_slice()) {
        None
    } else {
        values.number(name, None)
    }
}

/// The numbers of parameters, if each of them has one.
pub(crate) fn numbers_of(
    alloc: Global,
    values: &Values,
    names: &[Text],
) -> Result<Option<List<i64>>, Memory>
    ensures { IfOk result (λ numbers. numbers ≡ numbers_of values.now names.now) }
{
    let mut numbers = List::empty(alloc);
    'names: for name in names {
        match param_number(values, name) {
            Some(number) => numbers.push(number)?,
            None => return Ok(None),
        }
    }
    Ok(Some(numbers))
}
