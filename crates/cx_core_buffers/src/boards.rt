//! The numbers that parts have given for reductions.
ghost use Rattle.std.specs.Prelude.{◌≡◌, ◌<◌, ◌+◌, ◌-◌, true, [], ◌∷◌, ◌++◌, nat_lt, IfOk, OnOk, OnErr, length, map, drop, replicate, slice_index_or, slice_set, All};
ghost use Rattle.std.specs.List.{list_all};
ghost use Rattle.cx_core_buffers.specs.Boards.{IsReady, front, none_given, Gives, Takes};

use cx_reduce::Partial;
use cx_text::{List, Memory};
use std::alloc::Global;
use std::marker::Model;
use std::mem;

/// The numbers that parts have given for reductions, and that some part has still to take. Each part gives one number to every part,
/// itself included; it is kept once, until all have taken it.
#[derive(Drop)]
pub struct Boards {
    alloc: Global,
    given: Vec<List<Partial>>,
    taken: Vec<usize>,
}

impl Model for Boards {
    ghost use Rattle.cx_core_buffers.specs.Boards.{Given, IsGiven};

    ghost Value = { Given };

    ghost view = { λ b. record { given = b.given.items; taken = b.taken.items } };

    ghost invariant = { λ b. IsGiven (record { given = b.given.items; taken = b.taken.items }) };
}

impl Boards {
    /// Boards for so many parts, with nothing given.
    pub fn new(alloc: Global, parts: u32) -> Result<Self, Memory>
        ensures { IfOk result (λ b. b ≡ none_given parts) }
    {
        Ok(Boards {
            alloc,
            given: empty_lists(alloc, parts)?,
            taken: vec![in alloc; 0; parts as usize]?,
        })
    }

    /// Gives a number of part `from` to every part. When out of memory, nothing has changed.
    pub fn give(&mut self, from: u32, partial: Partial) -> Result<(), Memory>
        requires { from < length self.old.given }
        ensures ok { OnOk result (Gives self.old from partial self.new) }
        ensures err { OnErr result (self.new ≡ self.old) }
    {
        push(&mut self.given, from as usize, partial)
    }

    /// The oldest number of part `from` that part `to` hasn't taken.
    pub fn front(&self, from: u32, to: u32) -> &Partial
        requires from { from < length self.now.given }
        requires to { to < length self.now.given }
        requires ready { IsReady self.now to }
        ensures { result.now ≡ front self.now from to }
    {
        let at = self.taken[to as usize];
        &self.given[from as usize].as_slice()[at]
    }

    /// Part `to` takes the front number of every part. What all parts have taken is dropped.
    pub fn take(&mut self, to: u32)
        requires to { to < length self.old.given }
        requires ready { IsReady self.old to }
        ensures { Takes self.old to self.new }
    {
        let given = self.given[to as usize].len();
        add_one(&mut self.taken, to as usize, given);
        if all_some(&self.taken) {
            drop_firsts(self.alloc, &mut self.given);
            less_one(&mut self.taken);
        }
    }
}

/// So many empty lists.
fn empty_lists(alloc: Global, count: u32) -> Result<Vec<List<Partial>>, Memory>
    ensures { IfOk result (λ lists. lists.items ≡ replicate count []) }
{
    let mut lists = Vec::new(alloc);
    'lists: for _ in 0..count {
        lists.push(List::empty(alloc))?;
    }
    Ok(lists)
}

/// Adds a number to one of several lists. When out of memory, nothing has changed.
fn push(lists: &mut Vec<List<Partial>>, at: usize, partial: Partial) -> Result<(), Memory>
    requires { at < length lists.old.items }
    ensures ok { OnOk result (lists.new.items ≡ slice_set lists.old.items at
        (slice_index_or lists.old.items at [] ++ partial ∷ [])) }
    ensures err { OnErr result (lists.new.items ≡ lists.old.items) }
{
    let list = &mut lists[at];
    list.push(partial)
}

/// Raises one of several counts, which is below a number.
fn add_one(counts: &mut Vec<usize>, at: usize, _most: usize)
    requires at { at < length counts.old.items }
    requires below { slice_index_or counts.old.items at 0 < _most }
    ensures { counts.new.items ≡ slice_set counts.old.items at
        (slice_index_or counts.old.items at 0 + 1) }
{
    counts[at] += 1;
}

/// Whether all counts are above 0.
fn all_some(counts: &[usize]) -> bool
    ensures { result ≡ list_all (λ count. nat_lt 0 count) counts.now }
{
    counts.iter().all(|count| 0 < *count)
}

/// Lowers each of several counts.
fn less_one(counts: &mut Vec<usize>)
    requires { list_all (λ count. nat_lt 0 count) counts.old.items ≡ true }
    ensures { counts.new.items ≡ map (λ count. count - 1) counts.old.items }
{
    'counts: for count in counts.iter_mut() {
        *count -= 1;
    }
}

/// Drops the first number of each of several lists.
fn drop_firsts(alloc: Global, lists: &mut Vec<List<Partial>>)
    requires { All (λ list. 0 < length list) lists.old.items }
    ensures { lists.new.items ≡ map (drop 1) lists.old.items }
{
    'lists: for list in lists.iter_mut() {
        drop_first(alloc, list);
    }
}

/// Drops the first number of a list.
fn drop_first(alloc: Global, list: &mut List<Partial>)
    requires { 0 < length list.old }
    ensures { list.new ≡ drop 1 list.old }
{
    let mut numbers = mem::replace(list, List::empty(alloc)).into_vec();
    let _ = numbers.remove(0);
    *list = List::new(numbers);
}
