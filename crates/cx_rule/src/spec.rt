ghost use Rattle.std.specs.Prelude.{◌≡◌, IfOk, OnOk};
ghost use Rattle.cx_rule.specs.Single.{want_of};
ghost use Rattle.cx_rule.specs.Specs.{spec_named, with_cap, with_read, with_write, with_param};

use cx_plan::{ItemKind, Region};
use cx_text::{List, Memory, Text};
use std::alloc::Global;

/// The most points of a part that a routine sweeps, where it sets no other number.
const MOST_POINTS: u64 = 1 << 27;

/// A variable that a routine reads or writes.
#[derive(Debug, Drop)]
pub struct Want {
    /// Its full name, as `wave::phi`, or one with `_p` behind it for each level back in time.
    pub name: Text,
    /// Where it is read or written.
    pub region: Region,
    /// How far around a point it is read, in points of each direction; 0 where it is written.
    pub reach: u8,
}

/// What a routine says of itself.
#[derive(Debug, Drop)]
pub struct Spec {
    /// The thorn that has it.
    pub thorn: Text,
    /// Its name in that thorn's schedule.
    pub name: Text,
    /// What it computes.
    pub kind: ItemKind,
    /// What its rule reads, in the order of the window's reads.
    pub reads: List<Want>,
    /// What its rule writes, in the order of the rule's numbers.
    pub writes: List<Want>,
    /// The full names of the parameters that its rule takes, in the order of the place's numbers.
    pub params: List<Text>,
    /// The most points that a part may hold for it to be swept.
    pub cap: u64,
}

impl Want {
    /// A variable by its full name, in a region and with a reach.
    pub fn new(alloc: Global, name: &[u8], region: Region, reach: u8) -> Result<Self, Memory>
        ensures { IfOk result (λ want. want ≡ want_of name.now region reach) }
    {
        Ok(Want {
            name: Text::from_slice(alloc, name)?,
            region,
            reach,
        })
    }
}

impl Spec {
    /// A routine of a thorn that reads, writes and takes nothing. It sweeps parts of at most 134,217,728 points.
    pub fn new(alloc: Global, thorn: &[u8], name: &[u8], kind: ItemKind) -> Result<Self, Memory>
        ensures { IfOk result (λ spec. spec ≡ spec_named thorn.now name.now kind) }
    {
        Ok(Spec {
            thorn: Text::from_slice(alloc, thorn)?,
            name: Text::from_slice(alloc, name)?,
            kind,
            reads: List::empty(alloc),
            writes: List::empty(alloc),
            params: List::empty(alloc),
            cap: MOST_POINTS,
        })
    }

    /// Sets the most points that a part may hold for it to be swept.
    pub fn limit(&mut self, cap: u64)
        ensures { self.new ≡ with_cap self.old cap }
    {
        self.cap = cap;
    }

    /// Adds a read behind the others.
    pub fn add_read(
        &mut self,
        alloc: Global,
        name: &[u8],
        region: Region,
        reach: u8,
    ) -> Result<(), Memory>
        ensures { OnOk result (self.new ≡ with_read self.old (want_of name.now region reach)) }
    {
        self.reads.push(Want::new(alloc, name, region, reach)?)
    }

    /// Adds a write behind the others.
    pub fn add_write(&mut self, alloc: Global, name: &[u8], region: Region) -> Result<(), Memory>
        ensures { OnOk result (self.new ≡ with_write self.old (want_of name.now region 0)) }
    {
        self.writes.push(Want::new(alloc, name, region, 0)?)
    }

    /// Adds a parameter behind the others.
    pub fn add_param(&mut self, alloc: Global, name: &[u8]) -> Result<(), Memory>
        ensures { OnOk result (self.new ≡ with_param self.old name.now) }
    {
        self.params.push(Text::from_slice(alloc, name)?)
    }
}
