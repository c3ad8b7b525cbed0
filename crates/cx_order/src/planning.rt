//! The plan: per bin its entries in order, each group with its contents.

ghost use Rattle.std.specs.Prelude.{◌≡◌, suc, ◌+◌, ◌<◌, ◌≤◌, ◌∷◌, [], ◌++◌, filter_map, length, slice_get, codes, All, Some, IfOk, IfSome, OnOk, ◌^◌, nat_lt, if◌then◌else◌};
ghost use Rattle.cx_plan.specs.Lookups.{bin_count, run_bin_count};
ghost use Rattle.cx_order_entries.specs.PlaceNumbers.{place_count};
ghost use Rattle.cx_order_entries.specs.Members.{entries_of};
ghost use Rattle.cx_order.specs.Plans.{most_nodes, path_of, item_of, call_tree, calls};
ghost use Rattle.cx_order.specs.Texts.{blanks};
ghost use Rattle.cx_order_entries.specs.Seen.{seen_entry};
ghost use Rattle.cx_order.specs.Worlds.{world_of};
ghost use Rattle.cx_order.specs.PlanSteps.{bin_forest_of, world_in, entries_in, IsSource, IsMember, ordered, Makes, Works, MakesBin, MakesBins, IsPlanOf, HasRoom, calls_of, numbers_of, IsNamed, entry_line, member_of, bin_line, forests_of, items_of, contents_of, place_of};

use crate::context::Context;
use crate::entry_text::push_entry_text;
use crate::items::item_of;
use crate::meaning::Meaning;
use crate::tree_parts::{call_tree, group_tree, wrapped_tree};
use cx_order_entries::{BINS, Entry, Placed, bin_name, entry_name, join_names};
use cx_plan::{Bin, Item, Schedule, Tree};
use cx_text::{List, Memory, Text};
use std::alloc::{AllocError, Global};

/// What a plan is made of.
#[derive(Clone, Copy)]
pub(crate) struct Source<'a> {
    pub context: &'a Context<'a>,
    pub entries: &'a [Entry<'a>],
    pub placed: &'a Placed,
    /// What each entry's names stand for.
    pub meanings: &'a [Meaning],
}

/// What is made beside the trees.
#[derive(Drop)]
pub(crate) struct Made {
    pub items: List<Item>,
    pub text: Text,
}

/// An entry with what is known of it.
#[derive(Clone, Copy)]
pub(crate) struct Member<'a> {
    pub entry: &'a Entry<'a>,
    /// What its names stand for.
    pub meaning: &'a Meaning,
    /// The number of the place that it contains, for a group.
    pub inside: Option<usize>,
}

/// A plan with its items and its text.
#[derive(Drop)]
pub(crate) struct Planned {
    pub plan: Schedule,
    pub items: List<Item>,
    pub text: Text,
}

/// The path of an entry.
fn path_of(alloc: Global, path: &Text, entry: &Entry<'_>) -> Result<Text, Memory>
    ensures { IfOk result (λ inner. inner ≡ path_of path.now (seen_entry entry.now)) }
{
    join_names(alloc, path.as_slice(), entry_name(entry).as_slice())
}

/// Two blanks for each bin or group around a line.
fn push_blanks(text: &mut Text, depth: usize) -> Result<(), Memory>
    ensures { OnOk result (text.new ≡ text.old ++ blanks depth) }
{
    'blanks: for _ in 0..depth {
        text.push_slice(b"  ")?;
    }
    Ok(())
}

/// Adds an entry's line.
fn push_line(
    text: &mut Text,
    context: &Context<'_>,
    member: &Member<'_>,
    depth: usize,
) -> Result<(), Memory>
    requires { IsNamed (world_of context.now) member.now }
    ensures { let e = seen_entry member.now.entry.now in
        OnOk result (text.new ≡ text.old ++ entry_line (world_of context.now) depth e) }
{
    push_blanks(text, depth)?;
    push_entry_text(text, context, member.entry, member.meaning)?;
    text.push_slice(b"\n")?;
    Ok(())
}

/// The number of the next item.
fn next_number(items: &List<Item>) -> u32
    requires few { length items.now ≤ most_nodes }
    ensures { result ≡ length items.now }
{
    items.len() as u32
}

/// Adds the item of a routine's entry, and gives its call.
fn plan_call(
    alloc: Global,
    context: &Context<'_>,
    made: &mut Made,
    member: &Member<'_>,
    path: &Text,
) -> Result<Tree, Memory>
    requires meaning { IsNamed (world_of context.now) member.now }
    requires few { HasRoom made.old 1 }
    ensures tree { let number = length made.old.items in
        IfOk result (λ tree. tree ≡ call_tree path.now member.now.meaning.now.sync number) }
    ensures items { let e = seen_entry member.now.entry.now in
        let item = item_of (world_of context.now) e path.now in
        OnOk result (made.new.items ≡ made.old.items ++ item ∷ []) }
    ensures text { made.new.text ≡ made.old.text }
{
    let number = next_number(&made.items);
    let item = item_of(alloc, context, member.entry, member.meaning, path)?;
    made.items.push(item)?;
    call_tree(alloc, path, &member.meaning.sync, number)
}

/// The entry at a place of a list, if there is one.
fn picked_one(members: &[usize], place: usize) -> Option<usize>
    ensures { result ≡ slice_get members.now place }
{
    members.get(place).copied()
}

/// The entries at these places of a list.
pub(crate) fn picked_numbers(
    alloc: Global,
    members: &[usize],
    order: &[usize],
) -> Result<Vec<usize>, AllocError>
    ensures { IfOk result
        (λ picked. picked.items ≡ filter_map (λ k. slice_get members.now k) order.now) }
{
    order
        .iter()
        .filter_map(|place| picked_one(members, *place))
        .collect(alloc)
}

impl<'a> Source<'a> {
    /// An entry by its number.
    fn member(&self, index: usize) -> Member<'a>
        requires source { IsSource self.now }
        requires within { index < length self.now.entries.now }
        ensures is { IsMember self.now result }
        ensures there { slice_get (entries_in self.now) index ≡ Some (seen_entry result.entry.now) }
    {
        Member {
            entry: &self.entries[index],
            meaning: &self.meanings[index],
            inside: self.placed.inside.as_slice()[index],
        }
    }

    /// The entries of a place in order, by their numbers; none without a place.
    fn members(&self, place: Option<usize>) -> Result<Vec<usize>, Memory>
        requires source { IsSource self.now }
        requires place { IfSome place (λ k. k < place_count (entries_in self.now)) }
        ensures entries { let es = entries_in self.now in
            let wanted = ordered es self.now.placed.now.orders place in
            IfOk result (λ members. entries_of es members.items ≡ wanted) }
        ensures within { let count = length self.now.entries.now in
            IfOk result (λ members. All (λ i. i < count) members.items) }
    {
        match place {
            Some(place) => {
                let members = self.placed.members.row(place);
                let order = self.placed.orders.row(place);
                Ok(picked_numbers(self.context.alloc, members, order)?)
            }
            None => Ok(Vec::new(self.context.alloc)),
        }
    }
}

/// Plans what a place contains, at most `nesting` groups deep; `around` groups stand around it.
#[cycle(plan)]
fn plan_place(
    source: &Source<'_>,
    made: &mut Made,
    nesting: usize,
    place: Option<usize>,
    path: &Text,
    around: usize,
) -> Result<Vec<Tree>, Memory>
    requires source { IsSource source.now }
    requires place { IfSome place (λ k. k < place_count (entries_in source.now)) }
    requires deep { around + nesting < 2 ^ 64 }
    requires few { HasRoom made.old (calls (place_of source.now nesting path.now place)) }
    ensures { let f = place_of source.now nesting path.now place in
        let w = world_in source.now in
        IfOk result (λ trees. Makes w (suc around) f made.old made.new trees.items) }
{
    if nesting == 0 {
        return Ok(Vec::new(source.context.alloc));
    }
    let members = source.members(place)?;
    plan_members(source, made, nesting - 1, &members, path, around)
}

/// The trees of a bin's or group's members, in their order.
#[cycle(plan)]
fn plan_members(
    source: &Source<'_>,
    made: &mut Made,
    nesting: usize,
    members: &[usize],
    path: &Text,
    around: usize,
) -> Result<Vec<Tree>, Memory>
    requires source { IsSource source.now }
    requires within { All (λ i. i < length source.now.entries.now) members.now }
    requires deep { around + nesting + 1 < 2 ^ 64 }
    requires few { HasRoom made.old (calls (numbers_of source.now nesting path.now members.now)) }
    ensures { let f = numbers_of source.now nesting path.now members.now in
        let w = world_in source.now in
        IfOk result (λ trees. Makes w (suc around) f made.old made.new trees.items) }
{
    let mut trees = Vec::new(source.context.alloc);
    'members: for index in members {
        let member = source.member(*index);
        let tree = plan_member(source, made, nesting, &member, path, around)?;
        trees.push(tree)?;
    }
    Ok(trees)
}

/// The tree of one member, and its line in the plan's text.
#[cycle(plan)]
fn plan_member(
    source: &Source<'_>,
    made: &mut Made,
    nesting: usize,
    member: &Member<'_>,
    path: &Text,
    around: usize,
) -> Result<Tree, Memory>
    requires source { IsSource source.now }
    requires member { IsMember source.now member.now }
    requires deep { around + nesting + 1 < 2 ^ 64 }
    requires few { let e = seen_entry member.now.entry.now in
        HasRoom made.old (calls (member_of source.now nesting path.now e)) }
    ensures { let f = member_of source.now nesting path.now (seen_entry member.now.entry.now) in
        let w = world_in source.now in
        IfOk result (λ tree. Makes w (suc around) f made.old made.new (tree ∷ [])) }
{
    let inner = path_of(source.context.alloc, path, member.entry)?;
    push_line(&mut made.text, source.context, member, around + 1)?;
    let work = plan_work(source, made, nesting, member, &inner, around + 1)?;
    wrapped_tree(source.context.alloc, member.meaning, &inner, work)
}

/// Plans a group's contents or a routine's call, without IF and WHILE.
#[cycle(plan)]
fn plan_work(
    source: &Source<'_>,
    made: &mut Made,
    nesting: usize,
    member: &Member<'_>,
    path: &Text,
    around: usize,
) -> Result<Tree, Memory>
    requires source { IsSource source.now }
    requires member { IsMember source.now member.now }
    requires deep { around + nesting < 2 ^ 64 }
    requires few { let e = seen_entry member.now.entry.now in
        HasRoom made.old (calls_of e (contents_of source.now nesting path.now e)) }
    ensures { let e = seen_entry member.now.entry.now in
        let f = contents_of source.now nesting path.now e in
        let w = world_in source.now in
        IfOk result (λ work. Works w (suc around) e path.now f made.old made.new work) }
{
    if !member.entry.block.group {
        return plan_call(source.context.alloc, source.context, made, member, path);
    }
    let contents = plan_place(source, made, nesting, member.inside, path, around)?;
    group_tree(source.context.alloc, path, &member.meaning.sync, contents)
}

/// What stands behind the name of a bin.
fn bin_note(bin: usize) -> &'static [u8]
    ensures { result.now ≡ (if nat_lt bin run_bin_count then [] else codes " not run") }
{
    if bin < Bin::RUN.len() {
        b""
    } else {
        b" not run"
    }
}

/// Adds a bin's line.
fn push_bin(text: &mut Text, bin: usize) -> Result<(), Memory>
    ensures { OnOk result (text.new ≡ text.old ++ bin_line bin) }
{
    text.push_slice(b"bin ")?;
    text.push_slice(bin_name(bin))?;
    text.push_slice(bin_note(bin))?;
    text.push_slice(b"\n")?;
    Ok(())
}

/// Plans a bin.
fn plan_bin(source: &Source<'_>, made: &mut Made, bin: usize) -> Result<Tree, Memory>
    requires source { IsSource source.now }
    requires bin { bin < bin_count }
    requires few { HasRoom made.old (calls (bin_forest_of source.now bin)) }
    ensures { let f = bin_forest_of source.now bin in
        IfOk result (λ tree. MakesBin (world_in source.now) bin f made.old made.new tree) }
{
    push_bin(&mut made.text, bin)?;
    let path = Text::from_slice(source.context.alloc, bin_name(bin))?;
    let places = source.placed.members.len();
    let trees = plan_place(source, made, places, Some(bin), &path, 0)?;
    Ok(Tree::Seq(List::new(trees)))
}

/// The trees of all bins, in the order of their numbers, with the items that they call.
fn plan_bins(source: &Source<'_>, made: &mut Made) -> Result<Vec<Tree>, Memory>
    requires source { IsSource source.now }
    requires few { HasRoom made.old (length (items_of source.now)) }
    ensures { let fs = forests_of source.now in
        IfOk result (λ trees. MakesBins (world_in source.now) fs made.old made.new trees.items) }
{
    let mut trees = Vec::new(source.context.alloc);
    'bins: for bin in 0..BINS {
        let tree = plan_bin(source, made, bin)?;
        trees.push(tree)?;
    }
    Ok(trees)
}

/// Plans all bins.
pub(crate) fn plan(source: &Source<'_>) -> Result<Planned, Memory>
    requires source { IsSource source.now }
    requires few { length (items_of source.now) ≤ most_nodes }
    ensures { IfOk result (IsPlanOf (world_in source.now) (forests_of source.now)) }
{
    let mut made = Made {
        items: List::empty(source.context.alloc),
        text: Text::new(Vec::new(source.context.alloc)),
    };
    let trees = plan_bins(source, &mut made)?;
    Ok(Planned {
        plan: Schedule {
            bins: List::new(trees),
        },
        items: made.items,
        text: made.text,
    })
}
