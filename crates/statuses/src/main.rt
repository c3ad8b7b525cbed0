//! Three runs of the program, one after another in the current folder: of a file that is missing, of a run that ends at a WHILE, and of one
//! that finds no checkpoint.
#![tactic(auto)]

use cx_program::run_words;
use cx_text::Text;
use std::alloc::Global;
use std::io;
use std::process::ExitCode;

/// The parameter files.
const FILES: &[&str] = &["lacking.par", "control.par", "ca.par"];

/// The words that ask for the run of a parameter file.
fn run_of(alloc: Global, file: &str) -> io::Result<Vec<Text>> {
    let mut words = Vec::new(alloc);
    for word in ["run", file] {
        words.push(Text::new(word.as_bytes().to_vec(alloc)?))?;
    }
    Ok(words)
}

/// Runs each file, and prints the exit code after what the run prints. The last one's code is the program's.
fn main(rt: HostRuntime) -> io::Result<ExitCode> {
    let mut code = ExitCode::SUCCESS;
    for file in FILES {
        code = run_words(&rt, run_of(rt.alloc(), file));
        println!(rt; "{code:?}")?;
    }
    Ok(code)
}
