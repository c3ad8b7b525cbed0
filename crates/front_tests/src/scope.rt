//! Names in bound configurations.

use crate::common::{Files, bound, scope_words, text};
use cx_bind::Bound;
use cx_plan::VarId;
use cx_sched::Ref;
use cx_scope::{group_of, resolve};
use cx_text::{List, Text};
use std::alloc::Global;
use std::test::Fail;
use test_cases::same;

/// A name: what stands before `::`, the name, and the number in brackets.
type Name = (Option<&'static str>, &'static str, Option<u32>);

/// A public variable through an ancestor's ancestor, a private one, and a protected one of a friend's friend.
const FAMILY: &[Files] = &[
    (
        b"Low",
        b"implements: low\ninherits: mid\npublic:\nINT waves TYPE=GF DIM=1 TIMELEVELS=2 { phi }\n",
        b"",
        b"",
    ),
    (b"Mid", b"implements: mid\ninherits: TOP\n", b"", b""),
    (
        b"Roof",
        b"implements: top\npublic:\nINT shown { s }\nprivate:\nINT kept { p }\n",
        b"",
        b"",
    ),
    (
        b"Link",
        b"implements: link\nfriend: Low other absent\n",
        b"",
        b"",
    ),
    (
        b"Other",
        b"implements: other\nprotected:\nINT ours { o }\n",
        b"",
        b"",
    ),
];

/// Two thorns with the same names: copies, and a variable with the name of another one's past level.
const TWINS: &[Files] = &[
    (
        b"One",
        b"implements: one\ninherits: two\nINT g[2] TYPE=GF DIM=1 TIMELEVELS=3 { v w }\nINT x { v_p u }\n",
        b"",
        b"",
    ),
    (
        b"Two",
        b"implements: two\npublic:\nINT g TYPE=GF DIM=1 TIMELEVELS=2 { v w }\nINT w { u y_p }\nINT y TYPE=GF DIM=1 TIMELEVELS=2 { y }\n",
        b"",
        b"",
    ),
];

fn reference(alloc: Global, name: Name) -> Result<Ref, Fail> {
    let owner = match name.0 {
        Some(owner) => Some(text(alloc, owner.as_bytes())?),
        None => None,
    };
    Ok(Ref {
        owner,
        name: text(alloc, name.1.as_bytes())?,
        copy: name.2,
    })
}

fn level_words(alloc: Global, levels: &[(VarId, u8)]) -> Result<Text, Fail> {
    let mut words = text(alloc, b"")?;
    for (variable, level) in levels {
        words.push_slice(b" ")?;
        words.push_slice(variable.0.to_string(alloc)?.as_bytes())?;
        words.push_slice(b"/")?;
        words.push_slice(level.to_string(alloc)?.as_bytes())?;
    }
    Ok(words)
}

fn resolved(
    alloc: Global,
    bound: &Bound,
    storage: &List<u8>,
    thorn: u32,
    name: Name,
) -> Result<Text, Fail> {
    if thorn as usize >= bound.thorns().len() {
        return text(alloc, b"no such thorn");
    }
    let name = reference(alloc, name)?;
    match resolve(alloc, bound, storage, thorn, &name) {
        Ok(levels) => level_words(alloc, levels.as_slice()),
        Err(fault) => scope_words(alloc, &fault),
    }
}

fn group_words(alloc: Global, variables: &[VarId]) -> Result<Text, Fail> {
    let mut words = text(alloc, b"")?;
    for variable in variables {
        words.push_slice(b" ")?;
        words.push_slice(variable.0.to_string(alloc)?.as_bytes())?;
    }
    Ok(words)
}

fn grouped(alloc: Global, bound: &Bound, thorn: u32, name: Name) -> Result<Text, Fail> {
    if thorn as usize >= bound.thorns().len() {
        return text(alloc, b"no such thorn");
    }
    let name = reference(alloc, name)?;
    match group_of(alloc, bound, thorn, &name) {
        Ok(variables) => group_words(alloc, variables.as_slice()),
        Err(fault) => scope_words(alloc, &fault),
    }
}

fn stored(alloc: Global, levels: &[u8]) -> Result<List<u8>, Fail> {
    Ok(List::new(levels.to_vec(alloc)?))
}

/// A thorn, a name, and what the name means to the thorn.
type Case = (u32, Name, &'static str);

const FAMILY_NAMES: &[Case] = &[
    (0, (None, "s", None), " 1/0"),
    (0, (None, "SHOWN", None), " 1/0"),
    (0, (Some("TOP"), "s", None), " 1/0"),
    (0, (None, "p", None), "Hidden p"),
    (0, (Some("top"), "P", None), "NotFound top::P"),
    (0, (Some("roof"), "P", None), "Hidden roof::P"),
    (0, (None, "q", None), "NotFound q"),
    (2, (None, "p", None), "NoStorage p"),
    (2, (None, "kept", None), "NoStorage kept"),
    (0, (None, "phi", None), " 0/0"),
    (0, (None, "phi_p", None), "NoLevel phi_p"),
    (0, (None, "O", None), " 3/0"),
    (1, (None, "o", None), "Hidden o"),
    (2, (None, "phi", None), "Hidden phi"),
    (0, (None, "phi", Some(0)), "NotFound phi[0]"),
];

const FAMILY_GROUPS: &[Case] = &[
    (0, (None, "WAVES", None), " 0"),
    (0, (Some("other"), "ours", None), " 3"),
    (0, (None, "phi", None), "NotFound phi"),
    (0, (None, "kept", None), "Hidden kept"),
];

/// The variables are v[0] v[1] w[0] w[1] v_p u, and of the other thorn v w u y_p y.
const TWIN_NAMES: &[Case] = &[
    (0, (None, "v", Some(0)), " 0/0"),
    (0, (None, "v_p", Some(0)), " 0/1"),
    (0, (None, "V_P_p", Some(0)), " 0/2"),
    (0, (None, "v_p", Some(1)), "NoLevel v_p[1]"),
    (0, (None, "v", Some(2)), "NotFound v[2]"),
    (0, (None, "v", None), " 6/0"),
    (0, (None, "v_p", None), " 4/0"),
    (0, (None, "v_p_p", None), "NoLevel v_p_p"),
    (0, (None, "g", None), " 0/0 1/0 2/0 3/0"),
    (0, (Some("two"), "g", None), " 6/0 7/0"),
    (0, (None, "u", None), " 5/0"),
    (1, (None, "u", None), " 8/0"),
    (1, (None, "w", None), " 7/0"),
    (1, (None, "w_p", None), " 7/1"),
    (1, (None, "y_p", None), " 9/0"),
    (1, (None, "y", None), " 10/0"),
    (1, (Some("One"), "u", None), "Hidden One::u"),
    (1, (None, "v", Some(0)), "Hidden v[0]"),
];

/// Tests what a name means to a thorn.
fn means(
    alloc: Global,
    bound: &Bound,
    storage: &List<u8>,
    thorn: u32,
    name: Name,
    want: &str,
) -> Result<(), Fail> {
    let told = resolved(alloc, bound, storage, thorn, name)?;
    same(&(thorn, name), &told.as_slice(), &want.as_bytes())
}

/// Tests which group a name means to a thorn.
fn means_group(
    alloc: Global,
    bound: &Bound,
    thorn: u32,
    name: Name,
    want: &str,
) -> Result<(), Fail> {
    let told = grouped(alloc, bound, thorn, name)?;
    same(&(thorn, name), &told.as_slice(), &want.as_bytes())
}

#[test]
fn names_through_ancestors_and_friends(rt: HostRuntime) -> Result<(), Fail> {
    let alloc = rt.alloc();
    let bound = bound(alloc, FAMILY)?;
    let storage = stored(alloc, &[1, 1, 0, 1])?;
    for (thorn, name, want) in FAMILY_NAMES {
        means(alloc, &bound, &storage, *thorn, *name, want)?;
    }
    for (thorn, name, want) in FAMILY_GROUPS {
        means_group(alloc, &bound, *thorn, *name, want)?;
    }
    Ok(())
}

#[test]
fn equal_names_copies_and_past_levels(rt: HostRuntime) -> Result<(), Fail> {
    let alloc = rt.alloc();
    let bound = bound(alloc, TWINS)?;
    let storage = stored(alloc, &[3, 1, 2, 1, 1, 1, 2, 2, 1, 1, 2])?;
    for (thorn, name, want) in TWIN_NAMES {
        means(alloc, &bound, &storage, *thorn, *name, want)?;
    }
    Ok(())
}
