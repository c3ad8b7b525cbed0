//! Which parts can go.
ghost use Rattle.std.specs.Prelude.{ℕ, ◌≡◌, IsTrue, ◌<◌, ◌≤◌, length, map, slice_get, Some, IfOk};
ghost use Rattle.std.specs.List.{range_with_len};
ghost use Rattle.cx_core_events.specs.Paces.{Paces};
ghost use Rattle.cx_core_events.specs.Events.{partner_at, can_go, places_of, events};
ghost use Rattle.cx_core_events.specs.Flags.{HasFlags, IsAlone, IsKept, IsRight, IsAround};
ghost use Rattle.cx_grid.specs.declared.shapes.Side.{Side};

use crate::standing::Next;
use crate::standings::Standings;
use cx_grid::Side;
use cx_text::Memory;
use std::alloc::Global;

/// Which parts can go, how many they are, and what the writer can do.
#[derive(Debug, Drop)]
pub(crate) struct Flags {
    parts: Vec<bool>,
    going: u64,
    writer: Option<Next>,
}

impl Flags {
    /// The flags of where the parts stand.
    pub(crate) fn new(alloc: Global, standings: &Standings) -> Result<Flags, Memory>
        ensures { IfOk result (λ flags. HasFlags standings.now flags) }
    {
        let mut parts = new_flags(alloc, standings.count())?;
        set_flags(&mut parts, standings);
        let going = count_flags(&parts);
        Ok(Flags {
            parts,
            going,
            writer: standings.writer(),
        })
    }

    /// The flags of where the parts stand now.
    pub(crate) fn renew(&mut self, standings: &Standings)
        requires { length self.old.parts.items ≡ length standings.now.parts }
        ensures { HasFlags standings.now self.new }
    {
        set_flags(&mut self.parts, standings);
        self.going = count_flags(&self.parts);
        self.writer = standings.writer();
    }

    /// The flags once part k has done an operation. Where nothing else is said to have changed, only its flag
    /// and those of the parts that exchange faces with it are looked at.
    pub(crate) fn follow(&mut self, standings: &Standings, k: u32, alone: bool)
        requires count { length self.old.parts.items ≡ length standings.now.parts }
        requires part { k < length standings.now.parts }
        ensures { (p : Paces) → HasFlags p self.old → (IsTrue alone → IsAlone p standings.now k)
            → HasFlags standings.now self.new }
    {
        let _ = standings.count();
        set_after(&mut self.parts, standings, k, alone);
        self.going = count_flags(&self.parts);
        self.writer = standings.writer();
    }

    /// How many events can happen.
    pub(crate) fn count(&self) -> u64
        ensures { (p : Paces) → HasFlags p self.now → result ≡ length (events p) }
    {
        match self.writer {
            None => self.going,
            Some(_) => self.going.saturating_add(1),
        }
    }

    /// The event of a number.
    pub(crate) fn event(&self, k: u64) -> Option<Next>
        requires { length self.now.parts.items ≤ 512 }
        ensures { (p : Paces) → HasFlags p self.now → result ≡ slice_get (events p) k }
    {
        if k < self.going {
            match nth_flag(self.parts.as_slice(), k) {
                Some(part) => Some(Next::Part(part)),
                None => None,
            }
        } else if k == self.going {
            self.writer
        } else {
            None
        }
    }
}

/// Sets a flag for each part: whether it can go.
fn set_flags(flags: &mut Vec<bool>, standings: &Standings)
    requires { length flags.old.items ≡ length standings.now.parts }
    ensures value { flags.new.items
        ≡ map (can_go standings.now) (range_with_len 0 (length standings.now.parts)) }
    ensures few { length standings.now.parts ≤ 512 }
{
    let count = standings.count();
    'parts: for k in 0..count {
        flags[k as usize] = standings.can_go(k);
    }
}

/// Sets the flag of a part, if there is such a part.
fn set_flag(flags: &mut Vec<bool>, standings: &Standings, k: u32)
    requires { length flags.old.items ≡ length standings.now.parts }
    ensures kept { IsKept standings.now flags.old.items flags.new.items }
    ensures now { k < length flags.old.items → IsRight standings.now flags.new.items k }
{
    if k < standings.count() {
        flags[k as usize] = standings.can_go(k);
    }
}

/// Sets the flag of the part with which a part exchanges layers at a side.
fn set_side(flags: &mut Vec<bool>, standings: &Standings, k: u32, dir: u8, side: Side)
    requires count { length flags.old.items ≡ length standings.now.parts }
    requires part { k < length standings.now.parts }
    ensures kept { IsKept standings.now flags.old.items flags.new.items }
    ensures now { (j : ℕ) → partner_at standings.now.cut k dir side ≡ Some j
        → j < length flags.old.items → IsRight standings.now flags.new.items j }
{
    match standings.partner(k, dir, side) {
        None => {}
        Some(j) => set_flag(flags, standings, j),
    }
}

/// Sets the flags of the parts with which a part exchanges layers in a direction.
fn set_sides(flags: &mut Vec<bool>, standings: &Standings, k: u32, dir: u8)
    requires count { length flags.old.items ≡ length standings.now.parts }
    requires part { k < length standings.now.parts }
    ensures kept { IsKept standings.now flags.old.items flags.new.items }
    ensures now { (side : Side) (j : ℕ) → partner_at standings.now.cut k dir side ≡ Some j
        → j < length flags.old.items → IsRight standings.now flags.new.items j }
{
    set_side(flags, standings, k, dir, Side::Low);
    set_side(flags, standings, k, dir, Side::High);
}

/// Sets the flags of the parts with which a part exchanges layers.
fn set_around(flags: &mut Vec<bool>, standings: &Standings, k: u32)
    requires count { length flags.old.items ≡ length standings.now.parts }
    requires part { k < length standings.now.parts }
    ensures { IsAround standings.now k flags.old.items flags.new.items }
{
    set_sides(flags, standings, k, 0);
    set_sides(flags, standings, k, 1);
    set_sides(flags, standings, k, 2);
}

/// Sets the flags of a part and of those that exchange faces with it.
fn set_near(flags: &mut Vec<bool>, standings: &Standings, k: u32)
    requires count { length flags.old.items ≡ length standings.now.parts }
    requires part { k < length standings.now.parts }
    ensures value { (p : Paces) → IsAlone p standings.now k
        → flags.old.items ≡ map (can_go p) (range_with_len 0 (length p.parts))
        → flags.new.items
        ≡ map (can_go standings.now) (range_with_len 0 (length standings.now.parts)) }
    ensures count { length flags.new.items ≡ length flags.old.items }
{
    let _ = standings.count();
    set_flag(flags, standings, k);
    set_around(flags, standings, k);
}

/// Sets these flags where nothing else has changed, and else all.
fn set_after(flags: &mut Vec<bool>, standings: &Standings, k: u32, alone: bool)
    requires count { length flags.old.items ≡ length standings.now.parts }
    requires part { k < length standings.now.parts }
    ensures value { (p : Paces) → (IsTrue alone → IsAlone p standings.now k)
        → flags.old.items ≡ map (can_go p) (range_with_len 0 (length p.parts))
        → flags.new.items
        ≡ map (can_go standings.now) (range_with_len 0 (length standings.now.parts)) }
    ensures count { length flags.new.items ≡ length standings.now.parts }
{
    if alone {
        set_near(flags, standings, k);
    } else {
        set_flags(flags, standings);
    }
}

/// So many flags.
fn new_flags(alloc: Global, count: u32) -> Result<Vec<bool>, Memory>
    ensures { IfOk result (λ flags. length flags.items ≡ count) }
{
    Ok(vec![in alloc; false; count as usize]?)
}

/// How many flags are set.
fn count_flags(flags: &[bool]) -> u64
    requires { length flags.now ≤ 512 }
    ensures value { result ≡ length (places_of 0 flags.now) }
    ensures few { result ≤ 512 }
{
    let mut count = 0;
    'flags: for flag in flags {
        if *flag {
            count += 1;
        }
    }
    count
}

/// The place of the flag with a number, among those that are set.
fn nth_flag(flags: &[bool], number: u64) -> Option<u32>
    requires { length flags.now ≤ 512 }
    ensures { result ≡ slice_get (places_of 0 flags.now) number }
{
    let mut left = number;
    'flags: for (place, flag) in flags.iter().enumerate() {
        if *flag {
            if left == 0 {
                return Some(place as u32);
            }
            left -= 1;
        }
    }
    None
}
