//! The generated files.

ghost use Rattle.std.specs.Prelude.{◌≡◌, ◌≢◌, [], ◌++◌, Some, unwrap_or, find, OnOk, OnErr};
ghost use Rattle.std.specs.Option.{option_copied};
ghost use Rattle.std.specs.Str.{bytes_eq};
ghost use Rattle.gen_files.specs.Entries.{IsAscending, entry_of, with_pushed};
ghost use Rattle.wit_model.specs.Bytes.{Bytes};

use crate::entries::push_into;
use std::alloc::Global;
use std::marker::Model;
use wit_model::{List, OutOfMemory, Text};

/// Files by name, which contracts see as the list of names and bytes, in byte order of the names.
#[derive(Debug, Drop)]
pub struct Files {
    entries: Vec<(Text, List<u8>)>,
}

impl Model for Files {
    ghost use Rattle.gen_files.specs.Entries.{IsAscending};
    ghost use Rattle.std.specs.Prelude as std;

    ghost Value = { std.List (std.List std.ℕ × std.List std.ℕ) };

    ghost view = { λ files. files.entries.items };

    ghost invariant = { λ files. IsAscending files.entries.items };
}

impl Files {
    /// No file. It takes no memory.
    pub fn new(alloc: Global) -> Files
        ensures { result ≡ [] }
    {
        Files {
            entries: Vec::new(alloc),
        }
    }

    /// Puts bytes behind those of the file of a name, which is made where it is missing. After a refusal the files are as
    /// they were.
    pub fn push(&mut self, name: &str, bytes: &[u8]) -> Result<(), OutOfMemory>
        ensures ok { OnOk result (self.new ≡ with_pushed self.old name.now bytes.now) }
        ensures pushed { OnOk result (entry_of self.new name.now ≡ Some (unwrap_or (entry_of self.old name.now) [] ++ bytes.now)) }
        ensures others { OnOk result ((other : Bytes) → other ≢ name.now → entry_of self.new other ≡ entry_of self.old other) }
        ensures ascending { IsAscending self.new }
        ensures err { OnErr result (self.new ≡ self.old) }
    {
        push_into(&mut self.entries, name, bytes)
    }

    /// The bytes of the file of a name, if there is one.
    pub fn get(&self, name: &str) -> Option<&[u8]>
        ensures { option_copied result ≡ entry_of self.now name.now }
    {
        match self.entry(name) {
            None => None,
            Some(entry) => Some(entry.1.as_slice()),
        }
    }

    fn entry(&self, name: &str) -> Option<&(Text, List<u8>)>
        ensures { option_copied result ≡ find (λ entry. bytes_eq entry.0 name.now) self.now }
    {
        self.entries.iter().find(|entry| entry.0.as_str() == name)
    }

    /// The files, in byte order of their names. No name stands twice.
    pub fn iter(&self) -> &[(Text, List<u8>)]
        ensures value { result.now ≡ self.now }
        ensures ascending { IsAscending result.now }
    {
        self.entries.as_slice()
    }
}
