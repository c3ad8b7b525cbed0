//! Values that parameter files give the parameters of some thorns, and the faults of settings.

use crate::common::{Files, bound, settings_of, text};
use cx_expr::{ExprFault, eval, read_expr};
use cx_param::Value;
use cx_text::{Style, Text, tokens};
use cx_values::{ValueFault, Values, assign};
use std::alloc::Global;
use std::test::Fail;
use test_cases::same;

const ELEMCA: Files = (
    b"ElemCA",
    b"implements: ca\n",
    b"restricted:\nINT rule { 0:255 } 90\n",
    b"",
);

const RANGES: Files = (
    b"Ranges",
    b"implements: range\n",
    b"restricted:\nINT n { (0:10] } 1\nINT s { 1:9:2 } 1\n",
    b"",
);

const WAVE: Files = (
    b"WaveInt",
    b"implements: wave\n",
    b"restricted:\nKEYWORD pattern { \"point\" \"uniform\" } \"point\"\n",
    b"",
);

/// A private parameter, an array and a global parameter.
const NAMES: Files = (
    b"Names",
    b"implements: kinds\n",
    b"BOOLEAN own { } \"no\"\nrestricted:\nINT many[2] { 0:9 } 1\nglobal:\nINT all { 0:9 } 2\n",
    b"",
);

const MORE: Files = (
    b"More",
    b"implements: more\n",
    b"shares: wave\nEXTENDS KEYWORD pattern { \"saw\" }\nshares: kinds\nUSES INT many[2] AS few\n",
    b"",
);

const ALL: &[Files] = &[ELEMCA, RANGES, WAVE, NAMES, MORE];

fn values(alloc: Global, all: &[Files], file: &str) -> Result<Result<Values, ValueFault>, Fail> {
    let bound = bound(alloc, all)?;
    let settings = settings_of(alloc, file)?;
    Ok(assign(alloc, &bound, &settings))
}

/// A parameter file, and the name and the line of the fault of its settings.
const FAULTS: &[(&str, &str, u32)] = &[
    ("\n\nca::rule = 256\n", "OutOfRange", 3),
    ("\n\nca::rule = x\n", "BadSpelling", 3),
    ("\n\nca::ruler = 3\n", "UnknownParam", 3),
    ("\n\nElemCA::rule = 3\nca::rule = 4\n", "Twice", 4),
    ("range::n = 0\n", "OutOfRange", 1),
    ("range::n = 10\n", "", 0),
    ("range::n = 11\n", "OutOfRange", 1),
    ("range::s = 3\n", "", 0),
    ("range::s = 4\n", "OutOfRange", 1),
    ("kinds::own = yes\n", "UnknownParam", 1),
    ("Names::own = 2\n", "BadSpelling", 1),
    ("many[0] = 1\n", "UnknownParam", 1),
    ("kinds::many = 1\n", "Index", 1),
    ("kinds::many[2] = 1\n", "Index", 1),
    ("all[0] = 1\n", "Index", 1),
    ("kinds::all = 1\nNames::all = 1\n", "Twice", 2),
    ("wave::pattern = comb\n", "OutOfRange", 1),
    ("driver::lead = 65\n", "OutOfRange", 1),
    ("driver::balance = 2\n", "BadSpelling", 1),
    ("driver::weight_factor = 1048576\n", "", 0),
    ("PUGH::weight_factor = 1048577\n", "OutOfRange", 1),
    ("driver::weight_factor = -1\n", "OutOfRange", 1),
    ("driver::widths_x = \"4 16777217\"\n", "BadSpelling", 1),
    ("IO::recover_dir = a\nIO::checkpoint_dir = a\n", "", 0),
    (
        "IO::recover_dir = \".\"\nIO::checkpoint_dir = a\n",
        "OutOfRange",
        1,
    ),
    ("IO::checkpoint_ID = yes\n", "OutOfRange", 1),
    ("IO::steer_file = s.txt\n", "", 0),
];

/// The name of a fault, and its line; 0 where it keeps none.
pub(crate) fn named(fault: &ValueFault) -> (&'static str, u32) {
    match fault {
        ValueFault::BadDefault(_) => ("BadDefault", 0),
        ValueFault::UnknownParam(line) => ("UnknownParam", *line),
        ValueFault::Index(line) => ("Index", *line),
        ValueFault::BadSpelling(line) => ("BadSpelling", *line),
        ValueFault::OutOfRange(line) => ("OutOfRange", *line),
        ValueFault::Twice(line) => ("Twice", *line),
        ValueFault::NotSteerable(line) => ("NotSteerable", *line),
        ValueFault::SteerOrder(line) => ("SteerOrder", *line),
        ValueFault::Memory => ("Memory", 0),
    }
}

fn fault_of(answer: &Result<Values, ValueFault>) -> (&'static str, u32) {
    match answer {
        Ok(_) => ("", 0),
        Err(fault) => named(fault),
    }
}

/// The parameter whose default is bad.
fn bad_default(answer: &Result<Values, ValueFault>) -> &[u8] {
    match answer {
        Err(ValueFault::BadDefault(full)) => full.as_slice(),
        Ok(_) | Err(_) => b"",
    }
}

const BAD: Files = (
    b"Bad",
    b"implements: bad\n",
    b"restricted:\nINT n { 0:9 } 10\n",
    b"",
);

/// Tests a row of `FAULTS`.
fn has_fault(alloc: Global, file: &str, want: &str, line: u32) -> Result<(), Fail> {
    let answer = values(alloc, ALL, file)?;
    same(&file, &fault_of(&answer), &(want, line))
}

#[test]
fn settings_and_defaults_have_their_first_fault(rt: HostRuntime) -> Result<(), Fail> {
    for (file, want, line) in FAULTS {
        has_fault(rt.alloc(), file, want, *line)?;
    }
    let answer = values(rt.alloc(), &[BAD], "")?;
    same(
        &"a bad default",
        &bad_default(&answer),
        &b"bad::n".as_slice(),
    )
}

/// A parameter file; a parameter, an index of it, its value in words and its number.
type Told = (
    &'static str,
    &'static str,
    Option<u32>,
    Option<&'static str>,
    Option<i64>,
);

const VALUES: &[Told] = &[
    ("", "ca::rule", None, Some("90"), Some(90)),
    (
        "\n\nElemCA::rule = 3\n",
        "CA::rule",
        None,
        Some("3"),
        Some(3),
    ),
    ("CA::RULE = 007\n", "ca::rule", None, Some("7"), Some(7)),
    ("Names::own = T\n", "Names::own", None, Some("yes"), Some(1)),
    ("", "kinds::own", None, None, None),
    (
        "kinds::many[1] = 5\n",
        "kinds::many",
        Some(1),
        Some("5"),
        Some(5),
    ),
    (
        "kinds::many[1] = 5\n",
        "kinds::many",
        Some(0),
        Some("1"),
        Some(1),
    ),
    ("", "kinds::many", None, None, None),
    ("", "kinds::many", Some(2), None, None),
    ("", "ca::rule", Some(0), None, None),
    ("all = 3\n", "kinds::all", None, Some("3"), Some(3)),
    ("Names::all = 3\n", "kinds::all", None, Some("3"), Some(3)),
    (
        "wave::pattern = SAW\n",
        "wave::pattern",
        None,
        Some("saw"),
        Some(2),
    ),
    (
        "PUGH::periodic = 1\n",
        "driver::periodic",
        None,
        Some("yes"),
        Some(1),
    ),
    (
        "IO::checkpoint_dir = a\n",
        "IO::recover_dir",
        None,
        Some("a"),
        None,
    ),
    (
        "IO::out_every = -1\n",
        "IO::out_every",
        None,
        Some("-1"),
        Some(-1),
    ),
];

/// A value in words.
pub(crate) fn words(alloc: Global, value: &Value) -> Result<Text, Fail> {
    match value {
        Value::Number(n) => text(alloc, n.to_string(alloc)?.as_bytes()),
        Value::Flag(true) => text(alloc, b"yes"),
        Value::Flag(false) => text(alloc, b"no"),
        Value::Text(word) => text(alloc, word.as_slice()),
    }
}

fn is_told(alloc: Global, values: &Values, told: &Told) -> Result<bool, Fail> {
    let full = text(alloc, told.1.as_bytes())?;
    let is_number = values.number(&full, told.2) == told.4;
    match (values.get(&full, told.2), told.3) {
        (Some(value), Some(want)) => {
            Ok(is_number && words(alloc, value)?.as_slice() == want.as_bytes())
        }
        (None, None) => Ok(is_number),
        _ => Ok(false),
    }
}

/// Tests a row of `VALUES`.
fn gives(alloc: Global, told: &Told) -> Result<(), Fail> {
    let is_told = match values(alloc, ALL, told.0)? {
        Ok(values) => is_told(alloc, &values, told)?,
        Err(_) => false,
    };
    same(told, &is_told, &true)
}

#[test]
fn settings_give_values_by_each_form_of_name(rt: HostRuntime) -> Result<(), Fail> {
    for told in VALUES {
        gives(rt.alloc(), told)?;
    }
    Ok(())
}

/// The built-in parameters, and their defaults.
const DEFAULTS: &[(&str, &str)] = &[
    ("Cactus::cctk_itlast", "10"),
    ("Cactus::cctk_run_title", ""),
    ("Cactus::terminate", "iteration"),
    ("driver::global_nx", "10"),
    ("driver::global_ny", "10"),
    ("driver::global_nz", "10"),
    ("driver::global_nsize", "-1"),
    ("driver::ghost_size", "-1"),
    ("driver::ghost_size_x", "1"),
    ("driver::ghost_size_y", "1"),
    ("driver::ghost_size_z", "1"),
    ("driver::periodic", "no"),
    ("driver::periodic_x", "yes"),
    ("driver::periodic_y", "yes"),
    ("driver::periodic_z", "yes"),
    ("driver::parts_x", "1"),
    ("driver::parts_y", "1"),
    ("driver::parts_z", "1"),
    ("driver::widths_x", ""),
    ("driver::widths_y", ""),
    ("driver::widths_z", ""),
    ("driver::lead", "0"),
    ("driver::while_limit", "1000"),
    ("IO::out_dir", "."),
    ("IO::out_vars", ""),
    ("IO::out_every", "1"),
    ("IO::checkpoint_every", "-1"),
    ("IO::checkpoint_keep", "1"),
    ("IO::checkpoint_on_terminate", "no"),
    ("IO::checkpoint_dir", "."),
    ("IO::recover_dir", "."),
    ("IO::recover", "no"),
    ("IO::checkpoint_ID", "no"),
    ("IO::steer_file", ""),
    ("driver::balance", "no"),
    ("driver::weight", ""),
    ("driver::weight_factor", "1"),
];

/// The value of a parameter in words.
fn value_words(alloc: Global, values: &Values, full: &str) -> Result<Text, Fail> {
    let name = text(alloc, full.as_bytes())?;
    match values.get(&name, None) {
        Some(value) => words(alloc, value),
        None => text(alloc, b"no parameter"),
    }
}

/// Tests the value of a parameter.
fn has_value(alloc: Global, values: &Values, full: &str, want: &str) -> Result<(), Fail> {
    let told = value_words(alloc, values, full)?;
    same(&full, &told.as_slice(), &want.as_bytes())
}

#[test]
fn built_in_parameters_have_their_defaults(rt: HostRuntime) -> Result<(), Fail> {
    let values = values(rt.alloc(), &[], "")??;
    for (full, want) in DEFAULTS {
        has_value(rt.alloc(), &values, full, want)?;
    }
    Ok(())
}

/// A thorn's number, an expression and its value, or the fault's word.
const EXPRESSIONS: &[(u32, &str, Result<i64, &str>)] = &[
    (2, "CCTK_Equals(pattern, \"POINT\")", Ok(1)),
    (2, "pattern + 1", Err("NotNumber")),
    (4, "CCTK_Equals(pattern, \"point\")", Ok(1)),
    (0, "pattern + 1", Err("UnknownName")),
    (0, "rule + all", Ok(92)),
    (3, "many[1] + own", Ok(1)),
    (4, "few[1]", Ok(1)),
    (4, "many[1]", Err("UnknownName")),
    (4, "few[2]", Err("UnknownName")),
    (0, "CCTK_Equals(rule, \"90\")", Err("NotText")),
    (9, "all", Err("UnknownName")),
];

fn word(fault: &ExprFault) -> &'static str {
    match fault {
        ExprFault::UnknownName(_) => "UnknownName",
        ExprFault::NotNumber(_) => "NotNumber",
        ExprFault::NotText(_) => "NotText",
        ExprFault::Range(_) => "Range",
    }
}

/// What an expression comes to in a thorn: a value, or the fault's word.
fn evaluated(
    alloc: Global,
    values: &Values,
    thorn: u32,
    source: &str,
) -> Result<Result<i64, &'static str>, Fail> {
    let tokens = tokens(alloc, source.as_bytes(), Style::Ccl)?;
    let (expr, _) = read_expr(alloc, &tokens, 0)?;
    match eval(&expr, &values.lookup(thorn)) {
        Ok(n) => Ok(Ok(n)),
        Err(fault) => Ok(Err(word(fault))),
    }
}

/// Tests what an expression comes to in a thorn.
fn comes_to(
    alloc: Global,
    values: &Values,
    thorn: u32,
    source: &str,
    want: Result<i64, &str>,
) -> Result<(), Fail> {
    let found = evaluated(alloc, values, thorn, source)?;
    same(&(source, thorn), &found, &want)
}

#[test]
fn expressions_see_a_thorns_parameters(rt: HostRuntime) -> Result<(), Fail> {
    let values = values(rt.alloc(), ALL, "")??;
    for (thorn, source, want) in EXPRESSIONS {
        comes_to(rt.alloc(), &values, *thorn, source, *want)?;
    }
    Ok(())
}
