//! Lists of numbers, one per number.

ghost use Rattle.std.specs.Prelude.{◌≡◌, ◌+◌, ◌-◌, ◌<◌, ◌∷◌, [], ◌++◌, length, take, replicate, slice_set, IfOk, OnOk};
ghost use Rattle.cx_order_least.specs.Links.{row};

use cx_text::Memory;
use std::alloc::Global;
use std::marker::Model;

/// A list of numbers per number.
#[derive(Drop)]
pub struct Links {
    rows: Vec<Vec<usize>>,
}

impl Model for Links {
    ghost use Rattle.std.specs.Prelude.{List, ℕ, map};

    ghost Value = { List (List ℕ) };

    ghost view = { λ links. map (λ numbers. numbers.items) links.rows.items };
}

impl Links {
    /// So many empty lists.
    pub fn new(alloc: Global, count: usize) -> Result<Self, Memory>
        ensures { IfOk result (λ links. links ≡ replicate count []) }
    {
        let mut rows = Vec::new(alloc);
        'rows: for _ in 0..count {
            rows.push(Vec::new(alloc))?;
        }
        Ok(Links { rows })
    }

    /// How many lists there are.
    pub fn len(&self) -> usize
        ensures { result ≡ length self.now }
    {
        self.rows.len()
    }

    /// Adds a list.
    pub fn push_row(&mut self, row: Vec<usize>) -> Result<(), Memory>
        ensures { OnOk result (self.new ≡ self.old ++ row.items ∷ []) }
    {
        self.rows.push(row)?;
        Ok(())
    }

    /// A number's list.
    pub fn row(&self, at: usize) -> &[usize]
        requires { at < length self.now }
        ensures { result.now ≡ row self.now at }
    {
        &self.rows[at]
    }

    /// Adds a number at the end of a number's list.
    pub fn push(&mut self, at: usize, number: usize) -> Result<(), Memory>
        requires { at < length self.old }
        ensures { OnOk result (self.new ≡ slice_set self.old at (row self.old at ++ number ∷ [])) }
    {
        self.rows[at].push(number)?;
        Ok(())
    }

    /// Takes the last number of a number's list off.
    pub(crate) fn pop(&mut self, at: usize)
        requires { at < length self.old }
        ensures { let numbers = row self.old at in
            self.new ≡ slice_set self.old at (take (length numbers - 1) numbers) }
    {
        let _ = self.rows[at].pop();
    }
}
