//! The words of the command line.
ghost use Rattle.std.specs.Prelude.{◌≡◌, ◌≤◌, [], ◌∷◌, IsTrue, IfSome, option_map, Some, None};
ghost use Rattle.cx_run.specs.Words.{asked, command_of, file_asked, from_8, is_file, joined_seed, made_seed, made_size, make_asked, make_with, request, run_asked, run_with, seed_in, spaced_seed, with_file};
ghost use Rattle.cx_run.specs.declared.words.Command.{Command};
ghost use Rattle.cx_run.specs.declared.words.Command.TheVariants as commands;

use cx_text::{Text, natural_in};

/// The parameter file of a run that is made.
const FILE_NAME: &[u8] = b"made.par";

/// The greatest seed of one, 2^63 - 1.
const MOST_SEED: u64 = 9_223_372_036_854_775_807;

/// What can be asked for. The word of each is its name in small letters.
#[derive(Clone, Copy, Debug, PartialEq, Eq)]
pub enum Command {
    /// Runs the job that a file makes.
    Run,
    /// Makes the files of a run by a seed and a size, and runs the job that they make.
    Make { seed: u64, size: u32 },
    /// Cuts the output of a job into chunks.
    Chunk,
    /// Puts the output of a job together again from its chunks.
    Recombine,
    /// Makes the job of a file.
    Check,
    /// Makes the job and prints its schedule.
    Schedule,
    /// Makes the job and prints its key, the parameters that don't belong to it, and how the grid is cut.
    Describe,
    /// Makes the job and prints the parts of its grid.
    Parts,
}

/// What the words ask for, if they ask for anything: a command, the name of its parameter file, and the seed of its turns.
pub(crate) fn request_of(words: &[Text]) -> Option<(Command, &[u8], u64)>
    ensures { option_map (λ ask. request ask.0 ask.1.now ask.2) result ≡ asked words.now }
{
    match words {
        [] => None,
        [word, rest @ ..] => asked_by(word.as_slice(), rest),
    }
}

/// What a word and those after it ask for.
fn asked_by<'a>(word: &[u8], rest: &'a [Text]) -> Option<(Command, &'a [u8], u64)>
    ensures { option_map (λ ask. request ask.0 ask.1.now ask.2) result
        ≡ asked (word.now ∷ rest.now) }
{
    if word == b"run".as_slice() {
        run_asked(rest)
    } else if word == b"make".as_slice() {
        make_asked(rest)
    } else {
        file_asked(command_of(word), rest)
    }
}

/// The command of this word, if it isn't a run.
fn command_of(word: &[u8]) -> Option<Command>
    ensures { result ≡ command_of word.now }
{
    if word == b"check".as_slice() {
        Some(Command::Check)
    } else if word == b"schedule".as_slice() {
        Some(Command::Schedule)
    } else if word == b"describe".as_slice() {
        Some(Command::Describe)
    } else if word == b"parts".as_slice() {
        Some(Command::Parts)
    } else if word == b"chunk".as_slice() {
        Some(Command::Chunk)
    } else if word == b"recombine".as_slice() {
        Some(Command::Recombine)
    } else {
        None
    }
}

/// A command with a file alone.
fn file_asked(command: Option<Command>, words: &[Text]) -> Option<(Command, &[u8], u64)>
    ensures { option_map (λ ask. request ask.0 ask.1.now ask.2) result
        ≡ file_asked command words.now }
{
    match command {
        None => None,
        Some(command) => match words {
            [] => None,
            [file] => with_file(command, file.as_slice(), 0),
            [_, _, ..] => None,
        },
    }
}

/// A run of a file, with a seed before or after it, or with none.
fn run_asked(words: &[Text]) -> Option<(Command, &[u8], u64)>
    ensures { option_map (λ ask. request ask.0 ask.1.now ask.2) result ≡ run_asked words.now }
{
    match words {
        [] => None,
        [file] => with_file(Command::Run, file.as_slice(), 0),
        [a, b] => match run_with(a.as_slice(), joined_seed(b.as_slice())) {
            Some(found) => Some(found),
            None => run_with(b.as_slice(), joined_seed(a.as_slice())),
        },
        [a, b, c] => match run_with(a.as_slice(), spaced_seed(b.as_slice(), c.as_slice())) {
            Some(found) => Some(found),
            None => run_with(c.as_slice(), spaced_seed(a.as_slice(), b.as_slice())),
        },
        [_, _, _, _, ..] => None,
    }
}

/// A run of a file, if there is a seed.
fn run_with(file: &[u8], seed: Option<u64>) -> Option<(Command, &[u8], u64)>
    ensures { option_map (λ ask. request ask.0 ask.1.now ask.2) result ≡ run_with file.now seed }
{
    match seed {
        None => None,
        Some(seed) => with_file(Command::Run, file, seed),
    }
}

/// A command with a file, if that is the name of one.
fn with_file(command: Command, file: &[u8], seed: u64) -> Option<(Command, &[u8], u64)>
    ensures { option_map (λ ask. request ask.0 ask.1.now ask.2) result
        ≡ with_file command seed file.now }
{
    if is_file(file) {
        Some((command, file, seed))
    } else {
        None
    }
}

/// Whether a name isn't empty and doesn't begin with a dash.
fn is_file(name: &[u8]) -> bool
    ensures { result ≡ is_file name.now }
{
    match name {
        [] => false,
        [first, ..] => *first != b'-',
    }
}

/// The seed of `--turns=SEED`.
fn joined_seed(word: &[u8]) -> Option<u64>
    ensures { result ≡ joined_seed word.now }
{
    if word.starts_with(b"--turns=") {
        seed_in(&word[8..])
    } else {
        None
    }
}

/// The seed of `--turns SEED`.
fn spaced_seed(word: &[u8], next: &[u8]) -> Option<u64>
    ensures { result ≡ spaced_seed word.now next.now }
{
    if word == b"--turns".as_slice() {
        seed_in(next)
    } else {
        None
    }
}

/// A seed: one to twenty digits, below 2^64.
fn seed_in(word: &[u8]) -> Option<u64>
    ensures { result ≡ seed_in word.now }
{
    if word.len() <= 20 {
        natural_in(u64::MAX, word)
    } else {
        None
    }
}

/// A run that is made from a seed and a size.
fn make_asked(words: &[Text]) -> Option<(Command, &[u8], u64)>
    ensures { option_map (λ ask. request ask.0 ask.1.now ask.2) result ≡ make_asked words.now }
{
    match words {
        [] => None,
        [_] => None,
        [seed, size] => make_with(made_seed(seed.as_slice()), made_size(size.as_slice())),
        [_, _, _, ..] => None,
    }
}

/// A run that is made, if there are a seed and a size.
fn make_with<'a>(seed: Option<u64>, size: Option<u32>) -> Option<(Command, &'a [u8], u64)>
    ensures { option_map (λ ask. request ask.0 ask.1.now ask.2) result ≡ make_with seed size }
{
    match seed {
        None => None,
        Some(seed) => match size {
            None => None,
            Some(size) => Some((Command::Make { seed, size }, FILE_NAME, 0)),
        },
    }
}

/// The seed of a run that is made: one to twenty digits, below 2^63.
fn made_seed(word: &[u8]) -> Option<u64>
    ensures { result ≡ made_seed word.now }
{
    if word.len() <= 20 {
        natural_in(MOST_SEED, word)
    } else {
        None
    }
}

/// Its size: one to four digits, from 8 to 1024.
fn made_size(word: &[u8]) -> Option<u32>
    ensures { result ≡ made_size word.now }
{
    if word.len() <= 4 {
        from_8(natural_in(1024, word))
    } else {
        None
    }
}

/// A size that isn't below 8.
fn from_8(size: Option<u64>) -> Option<u32>
    requires { IfSome size (λ n. n ≤ 1024) }
    ensures { result ≡ from_8 size }
{
    match size {
        None => None,
        Some(size) => { if size >= 8 { Some(size as u32) } else { None } }
    }
}
