//! The words of the command line.

use std::{env, io};
use wit_model::{List, OutOfMemory, Text};

/// The words of the command line, without the program's name. Words that are not UTF-8 are no command, and come out as
/// no word at all.
pub(crate) fn words_of(rt: &HostRuntime) -> Result<List<Text>, OutOfMemory> {
    let mut words = List::new(rt.alloc());
    match env::args(rt) {
        Ok(arguments) => {
            for argument in arguments.skip(1) {
                words.push(Text::from_str(rt.alloc(), argument.as_str())?)?;
            }
            Ok(words)
        }
        Err(error) if error.kind() == io::ErrorKind::OutOfMemory => Err(OutOfMemory),
        Err(_) => Ok(words),
    }
}
