//! Runs the worked examples that the file `names` lists: each document goes through the program's command, and what comes
//! out is held against what must come out.
#![tactic(auto)]

mod difference;
mod example;
mod run;

ghost use Rattle.std.specs.Prelude.{◌≤◌, length, IfOk};

use example::{fits, name_of};
use std::process::ExitCode;
use std::rt::Files;
use std::{fs, io};

/// Runs the examples of these files of what must come out, and prints a line for each, also for one whose files cannot be
/// read. It answers how many are as they must be.
fn count_fitting(rt: &(impl Files + Print + AllocGlobal), files: &[&str]) -> io::Result<usize>
    ensures { IfOk result (λ n. n ≤ length files.now) }
{
    let mut count = 0;
    for file in files {
        let name = name_of(file);
        match fits(rt, name, file) {
            Ok(true) => count += 1,
            Ok(false) => {}
            Err(error) => println!(rt; "{name}: {error}")?,
        }
    }
    Ok(count)
}

/// Runs the examples of a list, a line for each, and answers whether all are as they must be.
fn run_all(rt: &(impl Files + Print + AllocGlobal), list: &str) -> io::Result<bool> {
    let files: Vec<&str> = list.lines().collect(rt.alloc())?;
    let count = count_fitting(rt, files.as_slice())?;
    println!(rt; "{count} of {} examples are ok", files.len())?;
    Ok(count == files.len())
}

fn main(rt: HostRuntime) -> io::Result<ExitCode> {
    let list = fs::read_to_string(&rt, "names")?;
    if run_all(&rt, list.as_str())? {
        Ok(ExitCode::SUCCESS)
    } else {
        Ok(ExitCode::FAILURE)
    }
}
