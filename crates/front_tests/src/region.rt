//! Small jobs, whose needs were worked out by hand.

ghost use Rattle.std.specs.Prelude.{◌≡◌, ◌∷◌, [], IfOk, codes};
ghost use Rattle.cx_plan.specs.Whole.{IsWhole};
ghost use Rattle.cx_plan.specs.declared.tree.Tree.TheVariants as trees;
ghost use Rattle.front_tests.specs.RegionSamples.{info_of, sample, sample_items, sample_variables, item_of, touch, switch as on, wave, whiles, nothing};

use cx_grid::{Point, Shape};
use cx_plan::{
    Cuts, Flag, Item, ItemKind, Job, Recover, Region, Schedule, Touch, Tree, VarId, VarInfo,
};
use cx_region::{RegionFault, check};
use cx_text::{Boxed, CType, List, Memory, Text};
use std::alloc::Global;
use std::test::Fail;

const WAVE: VarId = VarId(0);

const SWITCH: VarId = VarId(1);

fn text(alloc: Global, bytes: &[u8]) -> Result<Text, Fail>
    ensures { IfOk result (λ text. text ≡ bytes.now) }
{
    Ok(Text::from_slice(alloc, bytes)?)
}

fn variable(alloc: Global, full: &[u8], scalar: bool, levels: u8) -> Result<VarInfo, Fail>
    ensures { IfOk result (λ v. v ≡ info_of full.now scalar levels) }
{
    Ok(VarInfo {
        full: text(alloc, full)?,
        ctype: CType::Int8,
        scalar,
        levels,
    })
}

fn variables(alloc: Global) -> Result<List<VarInfo>, Fail>
    ensures { IfOk result (λ vars. vars ≡ sample_variables) }
{
    let wave = variable(alloc, b"phi", false, 3)?;
    let switch = variable(alloc, b"on", true, 1)?;
    Ok(List::new(Vec::from_array(alloc, [wave, switch])?))
}

fn touch(var: VarId, level: u8, region: Region, reach: u8) -> Touch
    ensures { result ≡ touch var level region reach }
{
    Touch {
        var,
        level,
        region,
        reach,
    }
}

fn touches(alloc: Global, touches: &[Touch]) -> Result<List<Touch>, Fail>
    ensures { IfOk result (λ list. list ≡ touches.now) }
{
    Ok(List::new(touches.to_vec(alloc)?))
}

fn item(alloc: Global, kind: ItemKind, reads: &[Touch], writes: &[Touch]) -> Result<Item, Fail>
    ensures { IfOk result (λ item. item ≡ item_of kind reads.now writes.now) }
{
    Ok(Item {
        thorn: text(alloc, b"W")?,
        name: text(alloc, b"w")?,
        path: text(alloc, b"EVOL/w")?,
        kind,
        routine: 0,
        reads: touches(alloc, reads)?,
        writes: touches(alloc, writes)?,
        params: List::empty(alloc),
    })
}

/// One sets the switch, one begins the wave on two levels, one takes its step, one sets its
/// boundary by what is within, and one sets its boundary alone.
fn items(alloc: Global) -> Result<List<Item>, Fail>
    ensures { IfOk result (λ items. items ≡ sample_items) }
{
    let on = [touch(SWITCH, 0, Region::Everywhere, 0)];
    let both = [
        touch(WAVE, 0, Region::Everywhere, 0),
        touch(WAVE, 1, Region::Everywhere, 0),
    ];
    let old = [
        touch(WAVE, 1, Region::Everywhere, 1),
        touch(WAVE, 2, Region::Interior, 0),
    ];
    let inner = [touch(WAVE, 0, Region::Interior, 0)];
    let outer = [touch(WAVE, 0, Region::Boundary, 0)];
    let switch = item(alloc, ItemKind::Scalar, &[], &on)?;
    let begin = item(alloc, ItemKind::Cell, &[], &both)?;
    let step = item(alloc, ItemKind::Cell, &old, &inner)?;
    let flat = item(alloc, ItemKind::Cell, &inner, &outer)?;
    let edge = item(alloc, ItemKind::Cell, &[], &outer)?;
    let items = [switch, begin, step, flat, edge];
    Ok(List::new(Vec::from_array(alloc, items)?))
}

fn nothing(alloc: Global) -> Tree
    ensures { result ≡ nothing }
{
    Tree::Seq(List::empty(alloc))
}

fn bins(alloc: Global, initial: Tree, evol: Tree) -> Result<List<Tree>, Fail>
    ensures { IfOk result (λ bins. bins ≡ (sample initial evol).plan.bins) }
{
    let bins = [
        nothing(alloc),
        nothing(alloc),
        nothing(alloc),
        nothing(alloc),
        initial,
        nothing(alloc),
        nothing(alloc),
        evol,
        nothing(alloc),
        nothing(alloc),
        nothing(alloc),
        nothing(alloc),
        nothing(alloc),
        nothing(alloc),
        nothing(alloc),
        nothing(alloc),
        nothing(alloc),
    ];
    Ok(List::new(Vec::from_array(alloc, bins)?))
}

fn line() -> Shape
    ensures { result ≡ (sample nothing nothing).shape }
{
    Shape {
        dims: 1,
        n: Point { x: 6, y: 1, z: 1 },
        ghost_: Point { x: 1, y: 0, z: 0 },
        periodic: [false, false, false],
    }
}

/// A job of the wave with these bins INITIAL and EVOL.
fn job(alloc: Global, initial: Tree, evol: Tree) -> Result<Job, Fail>
    ensures { IfOk result (λ job. job ≡ sample initial evol) }
{
    Ok(Job {
        shape: line(),
        vars: variables(alloc)?,
        items: items(alloc)?,
        steers: List::empty(alloc),
        plan: Schedule {
            bins: bins(alloc, initial, evol)?,
        },
        cut: Cuts {
            x: List::empty(alloc),
            y: List::empty(alloc),
            z: List::empty(alloc),
        },
        itlast: 8,
        while_limit: 8,
        lead: 1,
        balance: false,
        weight: None,
        weight_factor: 1,
        out_every: 1,
        out_vars: List::new(vec![in alloc; WAVE]?),
        chk_every: -1,
        keep: 1,
        on_end: false,
        recover: Recover::No,
        out_dir: text(alloc, b"out")?,
        chk_dir: text(alloc, b"chk")?,
        key: text(alloc, b"")?,
        plan_text: text(alloc, b"")?,
        starred: text(alloc, b"")?,
    })
}

/// One tree, and the other.
fn both(alloc: Global, first: Tree, second: Tree) -> Result<Tree, Fail>
    ensures { IfOk result (λ tree. tree ≡ trees.Seq (first ∷ second ∷ [])) }
{
    let trees = List::new(Vec::from_array(alloc, [first, second])?);
    Ok(Tree::Seq(trees))
}

fn if_on(alloc: Global, work: Tree) -> Result<Tree, Fail>
    ensures { IfOk result (λ tree. tree ≡ trees.If on (codes "EVOL/w") work) }
{
    let path = text(alloc, b"EVOL/w")?;
    Ok(Tree::If(SWITCH, path, Boxed::new(alloc, work)?))
}

fn while_on(alloc: Global, work: Tree) -> Result<Tree, Fail>
    ensures { IfOk result (λ tree. tree ≡ trees.While on (codes "EVOL/w") work) }
{
    let path = text(alloc, b"EVOL/w")?;
    Ok(Tree::While(SWITCH, path, Boxed::new(alloc, work)?))
}

/// So many WHILEs in one another.
fn nested(alloc: Global, count: u8, work: Tree) -> Result<Tree, Fail>
    ensures { IfOk result (λ tree. tree ≡ whiles count work) }
{
    let mut tree = work;
    'layers: for _ in 0..count {
        let next = while_on(alloc, tree)?;
        tree = next;
    }
    Ok(tree)
}

/// The exchange of the wave.
fn sync(alloc: Global) -> Result<Tree, Fail>
    ensures { IfOk result (λ tree. tree ≡ trees.Sync (wave ∷ []) (codes "EVOL/w")) }
{
    let variables = List::new(vec![in alloc; WAVE]?);
    Ok(Tree::Sync(variables, text(alloc, b"EVOL/w")?))
}

/// The switch is set, and then this is done.
fn initial(alloc: Global, work: Tree) -> Result<Tree, Fail>
    ensures { IfOk result (λ tree. tree ≡ trees.Seq (trees.Call 0 ∷ work ∷ [])) }
{
    both(alloc, Tree::Call(0), work)
}

/// A step, this, and the boundary.
fn step(alloc: Global, between: Tree) -> Result<Tree, Fail>
    ensures { let moved = trees.Seq (trees.Call 2 ∷ between ∷ []) in
        IfOk result (λ tree. tree ≡ trees.Seq (moved ∷ trees.Call 3 ∷ [])) }
{
    let moved = both(alloc, Tree::Call(2), between)?;
    both(alloc, moved, Tree::Call(3))
}

/// Whether each item has a shape, and no need is unmet.
fn is_sound(alloc: Global, initial: Tree, evol: Tree) -> Result<bool, Fail>
    requires { IsWhole (sample initial evol) }
{
    let job = job(alloc, initial, evol)?;
    match check(alloc, &job) {
        Ok(()) => Ok(true),
        Err(RegionFault::Unset { .. }) | Err(RegionFault::Shape(_, _)) => Ok(false),
        Err(RegionFault::Memory) => Err(Memory.into()),
    }
}

#[test]
fn a_wave_that_is_exchanged_is_sound(rt: HostRuntime) -> Result<(), Fail> {
    let alloc = rt.alloc();
    let first = initial(alloc, Tree::Call(1))?;
    let between = sync(alloc)?;
    let evol = step(alloc, between)?;
    let sound = is_sound(alloc, first, evol)?;
    assert!(rt; sound, "an exchanged wave");
    Ok(())
}

#[test]
fn a_wave_without_exchange_is_not(rt: HostRuntime) -> Result<(), Fail> {
    let alloc = rt.alloc();
    let first = initial(alloc, Tree::Call(1))?;
    let between = nothing(alloc);
    let evol = step(alloc, between)?;
    let sound = is_sound(alloc, first, evol)?;
    assert!(rt; !sound, "no exchange");
    Ok(())
}

#[test]
fn whiles_in_one_another_take_no_time(rt: HostRuntime) -> Result<(), Fail> {
    let alloc = rt.alloc();
    let first = initial(alloc, Tree::Call(1))?;
    let turns = nested(alloc, 30, Tree::Call(2))?;
    let evol = both(alloc, turns, Tree::Call(1))?;
    let sound = is_sound(alloc, first, evol)?;
    assert!(rt; sound, "thirty WHILEs, one in another");
    Ok(())
}

/// Whether this need is shown, on a way of these letters.
fn is_shown(
    alloc: Global,
    initial: Tree,
    evol: Tree,
    letters: &[u8],
    level: u8,
    flag: Flag,
) -> Result<bool, Fail>
    requires { IsWhole (sample initial evol) }
{
    let job = job(alloc, initial, evol)?;
    match check(alloc, &job) {
        Err(
            RegionFault::Unset {
                path,
                level: shown_level,
                flag: shown_flag,
                ..
            },
        ) => Ok(path.as_slice() == letters && shown_level == level && shown_flag == flag),
        Err(RegionFault::Memory) => Err(Memory.into()),
        Ok(()) | Err(RegionFault::Shape(_, _)) => Ok(false),
    }
}

#[test]
fn output_without_the_only_writer_is_shown(rt: HostRuntime) -> Result<(), Fail> {
    let alloc = rt.alloc();
    let perhaps = if_on(alloc, Tree::Call(1))?;
    let first = initial(alloc, perhaps)?;
    let between = sync(alloc)?;
    let evol = step(alloc, between)?;
    let shown = is_shown(alloc, first, evol, b"n", 0, Flag::I)?;
    assert!(rt; shown, "n, level 0, I");
    Ok(())
}

#[test]
fn a_missing_exchange_is_shown_in_the_second_iteration(rt: HostRuntime) -> Result<(), Fail> {
    let alloc = rt.alloc();
    let first = initial(alloc, Tree::Call(1))?;
    let evol = both(alloc, Tree::Call(2), Tree::Call(4))?;
    let shown = is_shown(alloc, first, evol, b"ii", 1, Flag::G)?;
    assert!(rt; shown, "ii, level 1, G");
    Ok(())
}

#[test]
fn a_turn_that_clears_the_boundary_is_shown(rt: HostRuntime) -> Result<(), Fail> {
    let alloc = rt.alloc();
    let first = initial(alloc, Tree::Call(1))?;
    let turns = nested(alloc, 3, Tree::Call(2))?;
    let evol = both(alloc, Tree::Call(1), turns)?;
    let shown = is_shown(alloc, first, evol, b"iwwwxxx", 0, Flag::B)?;
    assert!(rt; shown, "iwwwxxx, level 0, B");
    Ok(())
}
