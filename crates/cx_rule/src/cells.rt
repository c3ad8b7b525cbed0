ghost use Rattle.std.specs.Prelude.{◌≡◌, ◌<◌, length, slice_set, slice_index_or, pos, IfOk, replicate, ◌∷◌, [], OnOk, OnErr, Some, None};
ghost use Rattle.cx_rule.specs.Single.{one_number};

use crate::Overflow;
use cx_text::Memory;
use smallvec::{SmallVec, smallvec};
use std::alloc::Global;
use std::marker::Model;

/// The numbers that a routine writes at a point, one for each write.
#[derive(Debug, Drop)]
pub struct Cells {
    values: SmallVec<i64, 4>,
}

impl Model for Cells {
    ghost use Rattle.std.specs.Prelude.{List, ℤ};

    ghost Value = { List ℤ };

    ghost view = { λ cells. cells.values.items };
}

impl Cells {
    /// A number for each of so many writes, all 0.
    pub fn new(alloc: Global, writes: u32) -> Result<Self, Memory>
        ensures { IfOk result (λ cells. cells ≡ replicate writes (pos 0)) }
    {
        let values = smallvec![in alloc; 0; writes as usize]?;
        Ok(Cells { values })
    }

    /// Sets the number of a write.
    pub fn set(&mut self, k: usize, value: i64)
        requires { k < length self.old }
        ensures { self.new ≡ slice_set self.old k value }
    {
        self.values[k] = value;
    }

    /// Sets the number of the one write that there is.
    #[tactic(auto, using(crate::proofs::Single::only_one))]
    pub fn set_only(&mut self, value: i64)
        requires { length self.old ≡ 1 }
        ensures { self.new ≡ value ∷ [] }
    {
        self.set(0, value);
    }

    /// Sets the number of the one write that there is, if there is such a number.
    ///
    /// # Errors
    ///
    /// `Overflow` exactly where there is none; the cells are then as they were.
    pub fn set_if(&mut self, value: Option<i64>) -> Result<(), Overflow>
        requires { length self.old ≡ 1 }
        ensures numbers { OnOk result (one_number value ≡ Some self.new) }
        ensures overflow { OnErr result (one_number value ≡ None) }
        ensures unchanged { OnErr result (self.new ≡ self.old) }
        ensures room { length self.new ≡ length self.old }
    {
        match value {
            Some(number) => {
                self.set_only(number);
                Ok(())
            }
            None => Err(Overflow),
        }
    }

    /// The number of a write.
    pub fn get(&self, k: usize) -> i64
        requires { k < length self.now }
        ensures { result ≡ slice_index_or self.now k (pos 0) }
    {
        self.values[k]
    }
}
