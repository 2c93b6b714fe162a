//! Entries of names and bytes, kept in byte order of the names.

ghost use Rattle.std.specs.Prelude.{◌≡◌, ◌<◌, vec_len, IfOk, OnOk, OnErr};
ghost use Rattle.gen_files.specs.Entries.{with_pushed};
ghost use Rattle.gen_files.specs.Places.{is_before, place_of, has_name_at, with_bytes_at};

use std::alloc::Global;
use wit_model::{List, OutOfMemory, Text};

fn is_before(name: &str, entry: &(Text, List<u8>)) -> bool
    ensures { result ≡ is_before name.now entry.now }
{
    entry.0.as_str().cmp(name).is_lt()
}

#[tactic(auto, unfolding(crate::specs::Places::place_of))]
fn place_of(entries: &[(Text, List<u8>)], name: &str) -> usize
    ensures { result ≡ place_of entries.now name.now }
{
    entries
        .iter()
        .take_while(|entry| is_before(name, entry))
        .count()
}

#[tactic(auto, unfolding(crate::specs::Places::has_name_at))]
fn has_name_at(entries: &[(Text, List<u8>)], at: usize, name: &str) -> bool
    ensures { result ≡ has_name_at entries.now at name.now }
{
    match entries.get(at) {
        None => false,
        Some(entry) => entry.0.as_str() == name,
    }
}

fn push_bytes_at(
    entries: &mut Vec<(Text, List<u8>)>,
    at: usize,
    bytes: &[u8],
) -> Result<(), OutOfMemory>
    requires { at < vec_len entries.old }
    ensures ok { OnOk result (entries.new.items ≡ with_bytes_at entries.old.items at bytes.now) }
    ensures err { OnErr result (entries.new.items ≡ entries.old.items) }
{
    let entry = &mut entries[at];
    entry.1.extend_from_slice(bytes)
}

fn new_entry(alloc: Global, name: &str, bytes: &[u8]) -> Result<(Text, List<u8>), OutOfMemory>
    ensures { IfOk result (λ entry. entry ≡ (name.now, bytes.now)) }
{
    let mut contents = List::new(alloc);
    contents.extend_from_slice(bytes)?;
    Ok((Text::from_str(alloc, name)?, contents))
}

/// Puts bytes behind those under a name, or in a new entry in the name's place. After a refusal the entries are as they
/// were.
pub fn push_into(
    entries: &mut Vec<(Text, List<u8>)>,
    name: &str,
    bytes: &[u8],
) -> Result<(), OutOfMemory>
    ensures ok { OnOk result (entries.new.items ≡ with_pushed entries.old.items name.now bytes.now) }
    ensures err { OnErr result (entries.new.items ≡ entries.old.items) }
{
    let at = place_of(entries.as_slice(), name);
    if has_name_at(entries.as_slice(), at, name) {
        return push_bytes_at(entries, at, bytes);
    }
    let entry = new_entry(*entries.allocator(), name, bytes)?;
    entries.insert(at, entry)?;
    Ok(())
}
