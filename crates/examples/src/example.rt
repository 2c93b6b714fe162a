//! One example: its files, and the line on how it went.

use crate::difference::{Difference, first_difference};
use crate::run::told;
use std::alloc::{AllocError, Global};
use std::rt::Files;
use std::{fs, io};

/// What the run of the document `NAME.json` told.
fn told_at(rt: &(impl Files + AllocGlobal), name: &str) -> io::Result<Vec<u8>> {
    let document = fs::read(rt, format!(in rt.alloc(); "{name}.json")?)?;
    match told(rt.alloc(), document.as_slice()) {
        Ok(got) => Ok(got),
        Err(_) => Err(io::Error::from(AllocError)),
    }
}

fn print_difference(
    rt: &(impl Print + AllocGlobal),
    name: &str,
    found: &Difference<'_>,
) -> io::Result<()> {
    let expected = String::from_utf8_lossy(rt.alloc(), found.expected)?;
    let got = String::from_utf8_lossy(rt.alloc(), found.got)?;
    println!(rt;
        "{name}: line {} differs: expected {expected:?}, got {got:?}",
        found.number
    )
}

fn print_result(
    rt: &(impl Print + AllocGlobal),
    name: &str,
    expected: &[u8],
    got: &[u8],
) -> io::Result<bool> {
    match first_difference(expected, got) {
        None => {
            println!(rt; "{name}: ok")?;
            Ok(true)
        }
        Some(found) => {
            print_difference(rt, name, &found)?;
            Ok(false)
        }
    }
}

/// The name of an example, by the file of what its document must tell.
pub(crate) fn name_of(file: &str) -> &str {
    match file.rsplit_once('.') {
        Some((name, _)) => name,
        None => file,
    }
}

/// Runs the document `NAME.json`, and prints whether it told what the file holds; else the first line that differs. It
/// answers whether it did.
pub(crate) fn fits(
    rt: &(impl Files + Print + AllocGlobal),
    name: &str,
    file: &str,
) -> io::Result<bool> {
    let got = told_at(rt, name)?;
    let expected = fs::read(rt, file)?;
    print_result(rt, name, expected.as_slice(), got.as_slice())
}
