//! A part's own items.
ghost use Rattle.std.specs.Prelude.{◌≡◌, ◌<◌, ℕ, IfOk, length, slice_get, slice_index_or};
ghost use Rattle.cx_plan.specs.Lookups.{no_item};
ghost use Rattle.cx_plan.specs.Setups.{setup_of};
ghost use Rattle.cx_plan.specs.Steering.{item_at};
ghost use Rattle.cx_core_part.specs.Copies.{are_of, copied, copies_at, copies_of, is_before, items_at, picked};

use crate::steering::{copy_in, is_steered, next_after, set_copy};
use cx_plan::{Item, Job, Steered};
use cx_text::Memory;
use std::alloc::Global;
use std::marker::Model;

/// The items of a part, with the parameters of the iteration that it is in: a copy of each item that is steered.
#[derive(Drop)]
pub struct Items {
    /// By the item's number; none where nothing steers it, and no list where nothing is steered.
    copies: Vec<Option<Item>>,
    /// The iteration that they are set to.
    iteration: u64,
    /// The first iteration after it at which a steer begins to count.
    next: Option<u64>,
}

impl Model for Items {
    ghost use Rattle.cx_core_part.specs.Copies.{Copies};

    ghost Value = { Copies };

    ghost view = { λ items. record {
      items = items.copies.items;
      iteration = items.iteration;
      next = items.next;
    } };
}

impl Items {
    /// The items of a job in an iteration.
    ///
    /// # Errors
    ///
    /// `Memory` when out of memory.
    pub fn new(alloc: Global, job: &Job, iteration: u64) -> Result<Self, Memory>
        ensures { IfOk result (λ items. items ≡ copies_at (setup_of job.now) iteration) }
    {
        Ok(Items {
            copies: copies_in(alloc, job, iteration)?,
            iteration,
            next: next_after(job.steers.as_slice(), iteration),
        })
    }

    /// The item of a number, with its parameters in the iteration that the items are set to.
    pub fn item<'a>(&'a self, job: &'a Job, number: u32) -> &'a Item
        requires { number < length job.now.items }
        ensures { (n : ℕ) → self.now ≡ copies_at (setup_of job.now) n
            → result.now ≡ item_at (setup_of job.now) number n }
    {
        picked(&self.copies, job.items.as_slice(), number)
    }

    /// Sets the items to another iteration. It takes no memory, and until a steer begins to count no time.
    pub fn set(&mut self, alloc: Global, job: &Job, iteration: u64)
        requires { (n : ℕ) × (self.old ≡ copies_at (setup_of job.now) n) }
        ensures { self.new ≡ copies_at (setup_of job.now) iteration }
    {
        if self.are_of(iteration) {
            self.iteration = iteration;
        } else {
            self.renew(alloc, job, iteration);
        }
    }

    /// Whether no steer begins to count between the iteration that the items are set to and this one.
    fn are_of(&self, iteration: u64) -> bool
        ensures { result ≡ are_of self.now iteration }
    {
        self.iteration <= iteration && is_before(iteration, self.next)
    }

    /// Sets each copy to another iteration.
    fn renew(&mut self, alloc: Global, job: &Job, iteration: u64)
        requires { (n : ℕ) × (self.old ≡ copies_at (setup_of job.now) n) }
        ensures { self.new ≡ copies_at (setup_of job.now) iteration }
    {
        set_steered(alloc, &mut self.copies, job, iteration);
        self.iteration = iteration;
        self.next = next_after(job.steers.as_slice(), iteration);
    }
}

/// Whether an iteration comes before another one, if there is one.
fn is_before(iteration: u64, next: Option<u64>) -> bool
    ensures { result ≡ is_before iteration next }
{
    match next {
        None => true,
        Some(next) => iteration < next,
    }
}

/// A copy of an item, or the item itself where there is none.
fn picked<'a>(copies: &'a [Option<Item>], items: &'a [Item], number: u32) -> &'a Item
    requires { number < length items.now }
    ensures { result.now
        ≡ picked (slice_get copies.now number) (slice_index_or items.now number no_item) }
{
    match copies.get(number as usize) {
        Some(Some(copy)) => copy,
        _ => &items[number as usize],
    }
}

/// The copies of a job's items in an iteration.
fn copies_in(alloc: Global, job: &Job, iteration: u64) -> Result<Vec<Option<Item>>, Memory>
    ensures { IfOk result (λ copies. copies.items ≡ items_at (setup_of job.now) iteration) }
{
    if job.steers.is_empty() {
        return Ok(Vec::new(alloc));
    }
    let items = job.items.as_slice();
    Ok(first_copies(alloc, items, job.steers.as_slice(), iteration)?)
}

/// The copies of items in an iteration.
fn first_copies(
    alloc: Global,
    items: &[Item],
    steers: &[Steered],
    iteration: u64,
) -> Result<Vec<Option<Item>>, Memory>
    ensures { IfOk result (λ copies. copies.items ≡ copies_of steers.now items.now iteration) }
{
    let mut copies = Vec::new(alloc);
    'items: for k in 0..items.len() {
        copies.push(first_copy(alloc, &items[k], steers, k, iteration)?)?;
    }
    Ok(copies)
}

/// The copy of an item, if some steer is one of it.
fn first_copy(
    alloc: Global,
    of: &Item,
    steers: &[Steered],
    number: usize,
    iteration: u64,
) -> Result<Option<Item>, Memory>
    ensures { IfOk result (λ copy. copy ≡ copied steers.now number iteration of.now) }
{
    if !is_steered(steers, number) {
        return Ok(None);
    }
    Ok(Some(copy_in(alloc, of, steers, number, iteration)?))
}

/// Sets the copies of a job's items, if something is steered.
fn set_steered(alloc: Global, copies: &mut Vec<Option<Item>>, job: &Job, iteration: u64)
    requires { (n : ℕ) × (copies.old.items ≡ items_at (setup_of job.now) n) }
    ensures { copies.new.items ≡ items_at (setup_of job.now) iteration }
{
    if !job.steers.is_empty() {
        let items = job.items.as_slice();
        set_list(alloc, copies, items, job.steers.as_slice(), iteration);
    }
}

/// Sets the list of copies.
fn set_list(
    alloc: Global,
    copies: &mut Vec<Option<Item>>,
    items: &[Item],
    steers: &[Steered],
    iteration: u64,
)
    requires { (n : ℕ) × (copies.old.items ≡ copies_of steers.now items.now n) }
    ensures { copies.new.items ≡ copies_of steers.now items.now iteration }
{
    set_copies(alloc, copies, items, steers, iteration);
}

/// Sets all copies, one after another.
fn set_copies(
    alloc: Global,
    copies: &mut [Option<Item>],
    items: &[Item],
    steers: &[Steered],
    iteration: u64,
)
    requires { (n : ℕ) × (copies.old ≡ copies_of steers.now items.now n) }
    ensures { copies.new ≡ copies_of steers.now items.now iteration }
{
    'items: for k in 0..copies.len() {
        set_item(alloc, &mut copies[k], &items[k], steers, k, iteration);
    }
}

/// Sets a copy, if there is one.
fn set_item(
    alloc: Global,
    copy: &mut Option<Item>,
    of: &Item,
    steers: &[Steered],
    number: usize,
    iteration: u64,
)
    requires { (n : ℕ) × (copy.old ≡ copied steers.now number n of.now) }
    ensures { copy.new ≡ copied steers.now number iteration of.now }
{
    match copy {
        None => {}
        Some(copy) => set_copy(alloc, copy, of, steers, number, iteration),
    }
}
