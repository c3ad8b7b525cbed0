//! Schedules of bound thorns, and what ordering says of them.

use crate::common;
use crate::common::{of_one, scope_words, settings_of, text, thorn};
use cx_bind::{Bound, bind};
use cx_expr::ExprFault;
use cx_order::{OrderFault, Ordered, order};
use cx_sched::{ScheduleFile, read_schedule};
use cx_text::{List, Style, Text, tokens};
use cx_values::assign;
use sample_files::elemca;
use std::alloc::Global;
use std::test::Fail;
use test_cases::same;

/// A thorn's files, and its schedule file.
#[derive(Clone, Copy)]
struct Files<'a> {
    thorn: common::Files,
    schedule: &'a [u8],
}

/// A thorn with the private parameter `on`, which is 1.
fn with_parameter<'a>(
    name: &'static [u8],
    interface: &'static [u8],
    schedule: &'a [u8],
) -> Files<'a> {
    Files {
        thorn: (name, interface, b"private:\nINT on { 0:9 } 1\n", b""),
        schedule,
    }
}

/// The automaton.
const AUTOMATON: Files<'static> = Files {
    thorn: (b"ElemCA", elemca::INTERFACE, elemca::PARAM, b""),
    schedule: elemca::SCHEDULE,
};

const AUTOMATON_TEXT: &str = "bin STARTUP
bin WRAGH
bin PARAMCHECK
bin BASEGRID
bin INITIAL
  call ElemCA::ca_init writes ca::cell(everywhere)
bin POSTINITIAL
bin PRESTEP
bin EVOL
  call ElemCA::ca_step reads ca::cell(everywhere) writes ca::cell(interior) sync ca::cell
  call ElemCA::ca_zero writes ca::cell(boundary)
bin POSTSTEP
  call ElemCA::ca_count reads ca::cell(everywhere) writes ca::live(everywhere)
bin CHECKPOINT
bin ANALYSIS
bin TERMINATE
bin SHUTDOWN
bin CPINITIAL not run
bin RECOVER_PARAMETERS not run
bin RECOVER_VARIABLES not run
bin POST_RECOVER_VARIABLES not run
";

fn bound_of(alloc: Global, all: &[Files<'_>]) -> Result<Bound, Fail> {
    let mut thorns = List::empty(alloc);
    for files in all {
        thorns.push(thorn(alloc, files.thorn)?)?;
    }
    Ok(bind(alloc, thorns)?)
}

fn schedule_of(alloc: Global, bytes: &[u8]) -> Result<ScheduleFile, Fail> {
    let tokens = tokens(alloc, bytes, Style::Ccl)?;
    Ok(read_schedule(alloc, &tokens)?)
}

fn schedules(alloc: Global, all: &[Files<'_>]) -> Result<List<ScheduleFile>, Fail> {
    let mut schedules = List::empty(alloc);
    for files in all {
        schedules.push(schedule_of(alloc, files.schedule)?)?;
    }
    Ok(schedules)
}

/// What ordering says of thorns whose parameters have their defaults.
fn ordered(alloc: Global, all: &[Files<'_>]) -> Result<Option<Result<Ordered, OrderFault>>, Fail> {
    let bound = bound_of(alloc, all)?;
    let schedules = schedules(alloc, all)?;
    let settings = settings_of(alloc, "ActiveThorns = \"A\"\n")?;
    let values = assign(alloc, &bound, &settings)?;
    if schedules.len() != bound.thorns().len() {
        return Ok(None);
    }
    Ok(Some(order(alloc, &bound, &schedules, &values)))
}

fn of_two(alloc: Global, word: &[u8], first: &Text, second: &Text) -> Result<Text, Fail> {
    let mut words = of_one(alloc, word, first)?;
    words.push_slice(b" ")?;
    words.push_slice(second.as_slice())?;
    Ok(words)
}

fn of_list(alloc: Global, word: &[u8], names: &List<Text>) -> Result<Text, Fail> {
    let mut words = text(alloc, word)?;
    for name in names.as_slice() {
        words.push_slice(b" ")?;
        words.push_slice(name.as_slice())?;
    }
    Ok(words)
}

fn expr_words(alloc: Global, fault: &ExprFault) -> Result<Text, Fail> {
    match fault {
        ExprFault::UnknownName(name) => of_one(alloc, b"UnknownName ", name),
        ExprFault::NotNumber(name) => of_one(alloc, b"NotNumber ", name),
        ExprFault::NotText(name) => of_one(alloc, b"NotText ", name),
        ExprFault::Range(sign) => of_one(alloc, b"Range ", sign),
    }
}

fn limit_words(alloc: Global, what: &Text, number: u64) -> Result<Text, Fail> {
    let number = text(alloc, number.to_string(alloc)?.as_bytes())?;
    of_two(alloc, b"Limit ", what, &number)
}

fn fault_words(alloc: Global, fault: &OrderFault) -> Result<Text, Fail> {
    match fault {
        OrderFault::Expr(thorn, fault) => {
            of_two(alloc, b"Expr ", thorn, &expr_words(alloc, fault)?)
        }
        OrderFault::UnknownBin(name) => of_one(alloc, b"UnknownBin ", name),
        OrderFault::TwoNames(name) => of_one(alloc, b"TwoNames ", name),
        OrderFault::GroupCycle(names) => of_list(alloc, b"GroupCycle", names),
        OrderFault::Cycle(names) => of_list(alloc, b"Cycle", names),
        OrderFault::Scope(path, fault) => {
            of_two(alloc, b"Scope ", path, &scope_words(alloc, fault)?)
        }
        OrderFault::Limit(what, number) => limit_words(alloc, what, *number),
        OrderFault::Memory => text(alloc, b"Memory"),
    }
}

/// The lines of a schedule text between those of the bins EVOL and POSTSTEP.
fn evolution(alloc: Global, schedule: &Text) -> Result<Text, Fail> {
    let mut within = false;
    let mut lines = text(alloc, b"")?;
    for line in schedule.as_slice().split_inclusive(|byte| *byte == b'\n') {
        within = within && line != b"bin POSTSTEP\n".as_slice();
        if within {
            lines.push_slice(line)?;
        }
        within = within || line == b"bin EVOL\n".as_slice();
    }
    Ok(lines)
}

/// What a run's EVOL does, or the fault.
fn told(alloc: Global, all: &[Files<'_>]) -> Result<Text, Fail> {
    match ordered(alloc, all)? {
        None => text(alloc, b"another number of files"),
        Some(Ok(ordered)) => evolution(alloc, &ordered.text),
        Some(Err(fault)) => fault_words(alloc, &fault),
    }
}

/// Small schedules of a thorn T with the least order of their EVOL, worked out by hand.
const ORDERS: &[(&str, &str)] = &[
    (
        "schedule A AT EVOL BEFORE B { }\nschedule B AT EVOL BEFORE C { }\nschedule C AT EVOL BEFORE Z { }\n",
        "  call T::A\n  call T::B\n  call T::C\n",
    ),
    (
        "schedule A AT EVOL { }\nschedule B AT CCTK_EVOL { }\nschedule C AT evol BEFORE a { }\n",
        "  call T::B\n  call T::C\n  call T::A\n",
    ),
    (
        "schedule A AT EVOL AFTER B { }\nschedule B AT EVOL AFTER C { }\nschedule C AT EVOL { }\n",
        "  call T::C\n  call T::B\n  call T::A\n",
    ),
    (
        "schedule A AT EVOL AFTER D { }\nschedule B AT EVOL { }\nschedule C AT EVOL BEFORE B { }\nschedule D AT EVOL { }\n",
        "  call T::C\n  call T::B\n  call T::D\n  call T::A\n",
    ),
    (
        "schedule A AT EVOL { }\nschedule B AT EVOL { }\nschedule C AT EVOL { }\nschedule D AT EVOL BEFORE (A, C) { }\n",
        "  call T::B\n  call T::D\n  call T::A\n  call T::C\n",
    ),
    (
        "schedule A AT EVOL AS X { }\nschedule B AT EVOL BEFORE X { }\nschedule C AT EVOL BEFORE A { }\n",
        "  call T::B\n  call T::A as X\n  call T::C\n",
    ),
    (
        "schedule A AT EVOL AFTER Q { }\nschedule B AT EVOL { }\nschedule Q AT POSTSTEP BEFORE A { }\n",
        "  call T::A\n  call T::B\n",
    ),
    (
        "schedule A AT EVOL AFTER g { }\nschedule GROUP G AT EVOL { }\nschedule C IN g { }\nschedule D IN G BEFORE C { }\nschedule E IN H { }\n",
        "  group G\n    call T::D\n    call T::C\n  call T::A\n",
    ),
    (
        "schedule GROUP G AT EVOL { }\nschedule A IN G { }\nschedule GROUP G AT EVOL AS again BEFORE G { }\n",
        "  group G as again\n    call T::A\n  group G\n    call T::A\n",
    ),
    (
        "if (on == 1) schedule A AT EVOL { }\nelse { if (1 / 0) schedule B AT NEVER { } }\nif (0)\n{\nSTORAGE: nobody[9]\n}\nelse schedule C AT EVOL BEFORE A { }\n",
        "  call T::C\n  call T::A\n",
    ),
];

/// The same of a thorn W with a field of three levels and a scalar.
const FIELDS: &[(&str, &str)] = &[
    (
        "STORAGE: field[2]\nSTORAGE: flags\nschedule A AT EVOL IF on WHILE w::on { SYNC: phi field READS: phi_p phi_p(interior) WRITES: phi(boundary) }\n",
        "  call W::A if w::on while w::on reads w::phi_p(everywhere) w::phi_p(interior) writes w::phi(boundary) sync w::phi\n",
    ),
    (
        "if (on == 0)\n{\nSTORAGE: field[3]\n}\nSTORAGE: field[1] field[2]\nschedule A AT EVOL { READS: phi_p_p }\n",
        "Scope EVOL/A NoLevel phi_p_p",
    ),
    (
        "schedule GROUP G AT EVOL { READS: nobody }\nschedule A IN G { STORAGE: field[9] READS: phi_p_p }\n",
        "  group G\n    call W::A reads w::phi_p_p(everywhere)\n",
    ),
    (
        "STORAGE: field flags\nschedule GROUP G AT EVOL { SYNC: field }\nschedule A IN G { SYNC: flags }\n",
        "Scope EVOL/G/A NotGrid flags",
    ),
    (
        "STORAGE: field flags\nschedule A AT EVOL WHILE field { }\n",
        "Scope EVOL/A NotScalar field",
    ),
    (
        "schedule A AT EVOL { READS: phi }\n",
        "Scope EVOL/A NoStorage phi",
    ),
];

/// Faults, each of which comes before those behind it.
const FAULTS: &[(&str, &str)] = &[
    (
        "if (missing) { }\nschedule A AT NEVER { }\n",
        "Expr T UnknownName missing",
    ),
    (
        "schedule A AT CCTK_NEVER { }\nschedule A AT EVOL { }\nschedule A AT EVOL { }\n",
        "UnknownBin CCTK_NEVER",
    ),
    (
        "schedule A AT evol { }\nschedule a AT CCTK_EVOL { }\nschedule GROUP P IN P { }\n",
        "TwoNames EVOL/a",
    ),
    (
        "schedule GROUP P IN Q { }\nschedule GROUP Q IN P { }\nschedule A AT EVOL BEFORE A { }\n",
        "GroupCycle P Q",
    ),
    (
        "schedule GROUP p IN Rr { }\nschedule GROUP rR IN P { }\nschedule GROUP RR IN p AS again { }\n",
        "GroupCycle p rR",
    ),
    (
        "schedule A AT EVOL BEFORE B { }\nschedule B AT EVOL BEFORE C { }\nschedule C AT EVOL BEFORE A { }\nSTORAGE: nobody\n",
        "Cycle A B C",
    ),
    (
        "STORAGE: nobody\nschedule A AT EVOL { READS: other }\n",
        "Scope T NotFound nobody",
    ),
];

/// Tests the automaton's schedule, its stored levels, and how many items it has.
fn is_automaton(ordered: &Ordered) -> Result<(), Fail> {
    let schedule = ordered.text.as_slice();
    same(&"the schedule", &schedule, &AUTOMATON_TEXT.as_bytes())?;
    let storage = ordered.storage.as_slice();
    same(&"stored levels", &storage, &[1u8, 1].as_slice())?;
    same(&"how many items", &ordered.items.len(), &4)
}

#[test]
fn the_automaton(rt: HostRuntime) -> Result<(), Fail> {
    match ordered(rt.alloc(), &[AUTOMATON])? {
        Some(Ok(ordered)) => is_automaton(&ordered),
        _ => Err(Fail::new("the automaton has no order")),
    }
}

const FIELD: &[u8] =
    b"implements: w\npublic:\nINT field TYPE=GF DIM=1 TIMELEVELS=3 { phi }\nINT flags { on }\n";

/// Two thorns, in the order of activation, and what EVOL does.
const PAIRS: &[(&str, &str, &str)] = &[
    (
        "schedule M AT EVOL { }\n",
        "schedule N AT EVOL { }\n",
        "  call One::M\n  call Two::N\n",
    ),
    (
        "schedule M AT EVOL AFTER N { }\n",
        "schedule N AT EVOL { }\n",
        "  call Two::N\n  call One::M\n",
    ),
    (
        "schedule N AT EVOL { }\n",
        "schedule M AT EVOL AFTER N { }\n",
        "  call One::N\n  call Two::M\n",
    ),
    (
        "schedule M AT EVOL { }\n",
        "schedule M AT EVOL { }\n",
        "TwoNames EVOL/M",
    ),
];

/// Tests what EVOL does, or the fault.
fn is_told(alloc: Global, thorns: &[Files<'_>], name: &str, want: &str) -> Result<(), Fail> {
    let told = told(alloc, thorns)?;
    same(&name, &told.as_slice(), &want.as_bytes())
}

/// The same of a thorn T alone.
fn is_told_of_one(alloc: Global, schedule: &str, want: &str) -> Result<(), Fail> {
    let thorn = with_parameter(b"T", b"implements: t\n", schedule.as_bytes());
    is_told(alloc, &[thorn], schedule, want)
}

/// The same of a thorn with fields.
fn is_told_of_fields(alloc: Global, schedule: &str, want: &str) -> Result<(), Fail> {
    let thorn = with_parameter(b"W", FIELD, schedule.as_bytes());
    is_told(alloc, &[thorn], schedule, want)
}

/// The same of two thorns.
fn is_told_of_two(alloc: Global, first: &str, second: &str, want: &str) -> Result<(), Fail> {
    let thorns = [
        with_parameter(b"One", b"implements: one\n", first.as_bytes()),
        with_parameter(b"Two", b"implements: two\n", second.as_bytes()),
    ];
    is_told(alloc, &thorns, first, want)
}

#[test]
fn least_orders_and_faults_of_a_thorn(rt: HostRuntime) -> Result<(), Fail> {
    let alloc = rt.alloc();
    for table in [ORDERS, FAULTS] {
        for (schedule, want) in table {
            is_told_of_one(alloc, schedule, want)?;
        }
    }
    for (schedule, want) in FIELDS {
        is_told_of_fields(alloc, schedule, want)?;
    }
    Ok(())
}

#[test]
fn two_thorns_in_one_bin(rt: HostRuntime) -> Result<(), Fail> {
    for (first, second, want) in PAIRS {
        is_told_of_two(rt.alloc(), first, second, want)?;
    }
    Ok(())
}

/// Adds a group in another one.
fn push_group(
    alloc: Global,
    schedule: &mut Text,
    level: u32,
    outer: u32,
    copy: u32,
) -> Result<(), Fail> {
    let line = format!(in alloc; "schedule GROUP G{level} IN G{outer} AS c{copy} {{ }}\n")?;
    schedule.push_slice(line.as_bytes())?;
    Ok(())
}

/// Groups in groups, so many levels deep, each but the first so many times in the one around it.
fn nested_groups(alloc: Global, levels: u32, copies: u32) -> Result<Text, Fail> {
    let mut schedule = text(alloc, b"schedule GROUP G0 AT EVOL { }\n")?;
    for level in 1..levels {
        let outer = level.saturating_sub(1);
        for copy in 0..copies {
            push_group(alloc, &mut schedule, level, outer, copy)?;
        }
    }
    Ok(schedule)
}

/// Levels of groups, how often each stands in the one around it, and the limit that is passed. All 17 bins count as nodes.
const NESTED: &[(u32, u32, &str)] = &[
    (32, 1, "Limit depth 33"),
    (33, 2, "Limit depth 34"),
    (12, 2, "Limit nodes 4112"),
    (31, 5, "Limit nodes 18446744073709551615"),
];

/// Adds an entry that must run before the four that are numbered below it.
fn push_entry(alloc: Global, schedule: &mut Text, entry: u32) -> Result<(), Fail> {
    let (a, b) = (entry.saturating_sub(1), entry.saturating_sub(2));
    let (c, d) = (entry.saturating_sub(3), entry.saturating_sub(4));
    let line = format!(in alloc; "schedule e{entry} AT EVOL BEFORE (e{a} e{b} e{c} e{d}) {{ }}\n")?;
    schedule.push_slice(line.as_bytes())?;
    Ok(())
}

/// Entries with the numbers below an end from 4 on, each of which must run before the four that are numbered below it.
fn backward(alloc: Global, end: u32) -> Result<Text, Fail> {
    let mut schedule = text(alloc, b"")?;
    for entry in 4..end {
        push_entry(alloc, &mut schedule, entry)?;
    }
    Ok(schedule)
}

/// Tests the limit that nested groups pass.
fn is_limited(alloc: Global, levels: u32, copies: u32, want: &str) -> Result<(), Fail> {
    let schedule = nested_groups(alloc, levels, copies)?;
    let thorn = with_parameter(b"T", b"implements: t\n", schedule.as_slice());
    is_told(alloc, &[thorn], want, want)
}

/// What EVOL does of many entries.
fn told_of_large(alloc: Global) -> Result<Text, Fail> {
    let schedule = backward(alloc, 4083)?;
    let thorn = with_parameter(b"T", b"implements: t\n", schedule.as_slice());
    told(alloc, &[thorn])
}

#[test]
fn nested_groups_and_a_large_bin(rt: HostRuntime) -> Result<(), Fail> {
    let alloc = rt.alloc();
    for (levels, copies, want) in NESTED {
        is_limited(alloc, *levels, *copies, want)?;
    }
    let told = told_of_large(alloc)?;
    let first: &[u8] = b"  call T::e4082\n  call T::e4081\n";
    same(&"a large bin", &told.as_slice().starts_with(first), &true)?;
    let last: &[u8] = b"  call T::e5\n  call T::e4\n";
    same(
        &"a large bin's end",
        &told.as_slice().ends_with(last),
        &true,
    )
}
