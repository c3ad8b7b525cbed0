//! Thorns by their files, selected and bound, and the faults of thorns that don't fit each other.

use crate::common::{Files, bound, text, thorns};
use cx_bind::{BindFault, Bound, Param, bind, select};
use cx_conf::{ThornList, read_thornlist};
use cx_text::{List, Style, Text, tokens};
use sample_files::{control, diffint, elemca, life2d, waveint};
use std::alloc::Global;
use std::test::Fail;
use test_cases::same;

const ELEMCA: Files = (b"ElemCA", elemca::INTERFACE, elemca::PARAM, b"");

const WAVE: Files = (b"WaveInt", waveint::INTERFACE, waveint::PARAM, b"");

const HEAT: Files = (b"DiffInt", diffint::INTERFACE, diffint::PARAM, b"");

const LIFE: Files = (b"Life2D", life2d::INTERFACE, life2d::PARAM, b"");

const CONTROL: Files = (b"Control", control::INTERFACE, control::PARAM, b"");

/// Thorns, and the words of their fault, or nothing where they are bound.
const BINDINGS: &[(&[Files], &str)] = &[
    (&[ELEMCA, WAVE, HEAT, CONTROL], ""),
    (&[LIFE, CONTROL], ""),
    (&[ELEMCA, LIFE], "TwoDims ca::cells life::cells"),
    // a public variable through an ancestor's ancestor
    (
        &[
            (b"Top", b"implements: top\npublic:\nINT g { v }\n", b"", b""),
            (b"Mid", b"implements: mid\ninherits: TOP\n", b"", b""),
            (b"Low", b"implements: low\ninherits: mid\n", b"", b""),
        ],
        "",
    ),
    (
        &[ELEMCA, (b"Other", b"implements: CA\n", b"", b"")],
        "TwoProviders ca ElemCA Other",
    ),
    (
        &[(b"Other", b"implements: Driver\n", b"", b"")],
        "TwoProviders driver PUGH Other",
    ),
    (
        &[(b"Low", b"implements: low\ninherits: mid\n", b"", b"")],
        "MissingImplementation Low mid",
    ),
    (
        &[(b"N", b"implements: n\n", b"", b"REQUIRES THORNS: Absent\n")],
        "MissingThorn N Absent",
    ),
    (
        &[(b"N", b"implements: n\n", b"", b"REQUIRES power\n")],
        "MissingCapability N power",
    ),
    (
        &[
            ELEMCA,
            (
                b"E",
                b"implements: e\n",
                b"shares: ca\nEXTENDS KEYWORD absent { \"w\" }\n",
                b"",
            ),
        ],
        "NoParameter E ca absent",
    ),
    (
        &[(
            b"E",
            b"implements: e\n",
            b"shares: IO\nEXTENDS KEYWORD recover { \"w\" }\n",
            b"",
        )],
        "NoParameter E IO recover",
    ),
    (
        &[
            ELEMCA,
            (
                b"E",
                b"implements: e\n",
                b"shares: ca\nUSES BOOLEAN rule\n",
                b"",
            ),
        ],
        "WrongType E rule",
    ),
    (
        &[(
            b"V",
            b"implements: i\npublic:\nINT a { v w }\nINT b[2] { V }\nINT c { W }\n",
            b"",
            b"",
        )],
        "TwoVariables i::W",
    ),
    (
        &[
            (b"P", b"implements: p\n", b"global:\nINT n { } 1\n", b""),
            (b"Q", b"implements: q\n", b"global:\nINT N { } 1\n", b""),
        ],
        "TwoParameters q::N",
    ),
    (
        &[(b"R", b"implements: r\nCCTK_REAL g { v }\n", b"", b"")],
        "Unsupported R g",
    ),
    (
        &[(
            b"D",
            b"implements: d\nINT g TYPE=GF DIM=1\npublic:\nINT h TYPE=GF DIM=2\n",
            b"",
            b"",
        )],
        "TwoDims D::g d::h",
    ),
    (
        &[(
            b"M",
            b"implements: m\nINT g[64] { a b c d }\nINT h\n",
            b"",
            b"",
        )],
        "Limit variables 257",
    ),
];

fn push(words: &mut Text, text: &Text) -> Result<(), Fail> {
    words.push_slice(b" ")?;
    words.push_slice(text.as_slice())?;
    Ok(())
}

fn of_two(alloc: Global, name: &[u8], a: &Text, b: &Text) -> Result<Text, Fail> {
    let mut words = text(alloc, name)?;
    push(&mut words, a)?;
    push(&mut words, b)?;
    Ok(words)
}

fn of_three(alloc: Global, name: &[u8], a: &Text, b: &Text, c: &Text) -> Result<Text, Fail> {
    let mut words = of_two(alloc, name, a, b)?;
    push(&mut words, c)?;
    Ok(words)
}

fn of_one(alloc: Global, name: &[u8], a: &Text) -> Result<Text, Fail> {
    let mut words = text(alloc, name)?;
    push(&mut words, a)?;
    Ok(words)
}

fn words(alloc: Global, fault: &BindFault) -> Result<Text, Fail> {
    match fault {
        BindFault::UnknownThorn(a) => of_one(alloc, b"UnknownThorn", a),
        BindFault::TwoThorns(a) => of_one(alloc, b"TwoThorns", a),
        BindFault::TwoProviders(a, b, c) => of_three(alloc, b"TwoProviders", a, b, c),
        BindFault::MissingImplementation(a, b) => of_two(alloc, b"MissingImplementation", a, b),
        BindFault::MissingCapability(a, b) => of_two(alloc, b"MissingCapability", a, b),
        BindFault::MissingThorn(a, b) => of_two(alloc, b"MissingThorn", a, b),
        BindFault::NoParameter(a, b, c) => of_three(alloc, b"NoParameter", a, b, c),
        BindFault::WrongType(a, b) => of_two(alloc, b"WrongType", a, b),
        BindFault::TwoVariables(a) => of_one(alloc, b"TwoVariables", a),
        BindFault::TwoParameters(a) => of_one(alloc, b"TwoParameters", a),
        BindFault::Unsupported(a, b) => of_two(alloc, b"Unsupported", a, b),
        BindFault::TwoDims(a, b) => of_two(alloc, b"TwoDims", a, b),
        BindFault::Limit(a, n) => {
            let number = text(alloc, n.to_string(alloc)?.as_bytes())?;
            of_two(alloc, b"Limit", a, &number)
        }
        BindFault::Memory => text(alloc, b"Memory"),
    }
}

fn bound_words(alloc: Global, all: &[Files]) -> Result<Text, Fail> {
    match bind(alloc, thorns(alloc, all)?) {
        Ok(_) => text(alloc, b""),
        Err(fault) => words(alloc, &fault),
    }
}

/// Tests a row of `BINDINGS`.
fn fits(alloc: Global, place: usize, all: &[Files], want: &str) -> Result<(), Fail> {
    let told = bound_words(alloc, all)?;
    same(&(place, want), &told.as_slice(), &want.as_bytes())
}

#[test]
fn thorns_fit_or_have_their_first_fault(rt: HostRuntime) -> Result<(), Fail> {
    for (place, (all, want)) in BINDINGS.iter().enumerate() {
        fits(rt.alloc(), place, all, want)?;
    }
    Ok(())
}

/// A list with two thorns of one name.
fn thorn_list(alloc: Global) -> Result<ThornList, Fail> {
    let lines = b"Integer/ElemCA\nCactusPUGH/PUGH\nA/Twice\nB/Twice\n";
    let tokens = tokens(alloc, lines, Style::Thorns)?;
    Ok(read_thornlist(alloc, &tokens)?)
}

fn texts(alloc: Global, words: &[&[u8]]) -> Result<List<Text>, Fail> {
    let mut texts = List::empty(alloc);
    for word in words {
        texts.push(text(alloc, word)?)?;
    }
    Ok(texts)
}

fn place_words(alloc: Global, places: &List<(Text, Text)>) -> Result<Text, Fail> {
    let mut all = text(alloc, b"")?;
    for (arrangement, thorn) in places.as_slice() {
        push(&mut all, arrangement)?;
        push(&mut all, thorn)?;
    }
    Ok(all)
}

fn selected(alloc: Global, active: &[&[u8]]) -> Result<Text, Fail> {
    let list = thorn_list(alloc)?;
    let names = texts(alloc, active)?;
    match select(alloc, &list, &names) {
        Ok(places) => place_words(alloc, &places),
        Err(fault) => words(alloc, &fault),
    }
}

/// Tests which places thorns are selected from.
fn are_selected(alloc: Global, active: &[&[u8]], want: &str) -> Result<(), Fail> {
    let told = selected(alloc, active)?;
    same(&want, &told.as_slice(), &want.as_bytes())
}

#[test]
fn active_thorns_have_one_place_each(rt: HostRuntime) -> Result<(), Fail> {
    let alloc = rt.alloc();
    let cases: &[(&[&[u8]], &str)] = &[
        (&[b"PUGH", b"elemca", b"ElemCA"], " Integer ElemCA"),
        (&[b"ElemCA", b"Xyz", b"Twice"], "UnknownThorn Xyz"),
        (&[b"twice", b"Xyz"], "TwoThorns twice"),
        (&[b"driver"], "UnknownThorn driver"),
    ];
    for (active, want) in cases {
        are_selected(alloc, active, want)?;
    }
    Ok(())
}

/// Places of parameters, their names and their thorns; the built-in thorns come after the five of the test.
const PARAMETERS: &[(usize, &str, u32)] = &[
    (0, "Cactus::cctk_itlast", 5),
    (37, "ca::rule", 0),
    (56, "E::own", 4),
];

const EXTENSION: Files = (
    b"E",
    b"implements: e\n",
    b"shares: ca\nEXTENDS INT rule { 300 }\nprivate:\nBOOLEAN own { } \"yes\"\n",
    b"",
);

/// The variables' names.
fn variable_names(alloc: Global, bound: &Bound) -> Result<Text, Fail> {
    let mut names = text(alloc, b"")?;
    for info in bound.variables().as_slice() {
        push(&mut names, &info.full)?;
    }
    Ok(names)
}

const VARIABLES: &[u8] =
    b" ca::cell ca::live wave::phi wave::total diff::u diff::total control::count";

/// Tests the name and the thorn of the parameter at a place.
fn has_parameter(parameters: &[Param], place: usize, full: &str, thorn: u32) -> Result<(), Fail> {
    let found = parameters
        .get(place)
        .map(|it| (it.full.as_slice(), it.thorn));
    same(&place, &found, &Some((full.as_bytes(), thorn)))
}

/// Tests how many parameters there are, and how many ranges `ca::rule` has.
fn has_ranges(parameters: &[Param]) -> Result<(), Fail> {
    same(&"how many parameters", &parameters.len(), &57)?;
    let ranges = parameters.get(37).map(|it| it.ranges.len());
    same(&"ranges of ca::rule", &ranges, &Some(2))
}

#[test]
fn sample_thorns_have_their_variables_and_parameters(rt: HostRuntime) -> Result<(), Fail> {
    let alloc = rt.alloc();
    let bound = bound(alloc, &[ELEMCA, WAVE, HEAT, CONTROL, EXTENSION])?;
    let names = variable_names(alloc, &bound)?;
    same(&"variables", &names.as_slice(), &VARIABLES)?;
    has_ranges(bound.parameters().as_slice())?;
    for (place, full, thorn) in PARAMETERS {
        has_parameter(bound.parameters().as_slice(), *place, full, *thorn)?;
    }
    Ok(())
}
