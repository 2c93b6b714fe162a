//! Names in their order, of which a copy shares what there is.

ghost use Rattle.std.specs.Prelude.{◌≡◌, [], ◌∷◌, ◌++◌, ◌<◌, ◌-◌, length, map, take, IfOk, IfSome, OnErr, OnOk};
ghost use Rattle.std.specs.Bool.{OnTrue};
ghost use Rattle.std.specs.List.{list_any};
ghost use Rattle.std.specs.Rc.{rc_str_bytes};
ghost use Rattle.std.specs.Str.{bytes_eq};
ghost use Rattle.local_names.specs.Texts.{texts_in, texts_of};

use indexmap::IndexSet;
use std::alloc::{AllocError, Global};
use std::marker::Model;
use std::rc::{Rc, RcStr};

/// So many names are put into a set together: until then they are few enough to be looked through.
const TOGETHER: usize = 64;

/// Names in the order in which they were put; contracts see them as the list of their bytes. A name is found by hash sets, and of the last
/// ones by its bytes. Where none is put twice there are no more sets than bits in the count of the names, and a copy takes a reference to
/// each, and one to each of the last names.
#[derive(Drop)]
pub struct Names {
    /// What stands first is in the first set. Their sizes are `TOGETHER` times powers of two that get less.
    sets: Vec<Rc<IndexSet<RcStr>>>,
    /// What stands behind those.
    last: Vec<RcStr>,
}

impl Model for Names {
    ghost use Rattle.std.specs.Prelude.{◌++◌, List, map, ℕ};
    ghost use Rattle.std.specs.Rc.{rc_str_bytes};
    ghost use Rattle.local_names.specs.Texts.{texts_of};

    ghost Value = { List (List ℕ) };

    ghost view = { λ n. texts_of n.sets.items ++ map rc_str_bytes n.last.items };
}

/// Puts names behind those of a set. Where the answer is no, one of them was there.
fn add_all(set: &mut IndexSet<RcStr>, more: &[RcStr]) -> Result<bool, AllocError>
    ensures { IfOk result (λ added. OnTrue added (texts_in set.new ≡ texts_in set.old ++ map rc_str_bytes more.now)) }
{
    for name in more {
        if !set.insert(name.clone()?)? {
            return Ok(false);
        }
    }
    Ok(true)
}

/// The first names and the second ones behind them, in one set. There is none where a name is there twice.
fn joined(
    alloc: Global,
    first: &[RcStr],
    second: &[RcStr],
) -> Result<Option<IndexSet<RcStr>>, AllocError>
    ensures { IfOk result (λ set. IfSome set (λ set. texts_in set ≡ map rc_str_bytes first.now ++ map rc_str_bytes second.now)) }
{
    let mut set = IndexSet::with_capacity(alloc, first.len() + second.len())?;
    if add_all(&mut set, first)? && add_all(&mut set, second)? {
        return Ok(Some(set));
    }
    Ok(None)
}

/// The names of the last of these sets, and those of another one behind them. There is none where there is no set of the other's size,
/// or both have a name.
fn joined_last(
    alloc: Global,
    sets: &[Rc<IndexSet<RcStr>>],
    more: &IndexSet<RcStr>,
) -> Result<Option<IndexSet<RcStr>>, AllocError>
    ensures names { IfOk result (λ set. IfSome set (λ set. texts_of (take (length sets.now - 1) sets.now) ++ texts_in set ≡ texts_of sets.now ++ texts_in more.now)) }
    ensures some { IfOk result (λ set. IfSome set (λ set. 0 < length sets.now)) }
{
    let Some(last) = sets.last() else {
        return Ok(None);
    };
    if last.len() != more.len() {
        return Ok(None);
    }
    joined(alloc, last.as_slice(), more.as_slice())
}

/// The same sets.
fn shared_sets(
    alloc: Global,
    sets: &[Rc<IndexSet<RcStr>>],
) -> Result<Vec<Rc<IndexSet<RcStr>>>, AllocError>
    ensures { IfOk result (λ all. texts_of all.items ≡ texts_of sets.now) }
{
    let mut all = Vec::with_capacity(alloc, sets.len())?;
    for set in sets {
        all.push(set.clone()?)?;
    }
    Ok(all)
}

/// The same names, of which so few are in no set.
fn shared_names(alloc: Global, names: &[RcStr]) -> Result<Vec<RcStr>, AllocError>
    ensures { IfOk result (λ all. map rc_str_bytes all.items ≡ map rc_str_bytes names.now) }
{
    let mut all = Vec::with_capacity(alloc, names.len())?;
    for name in names {
        all.push(name.clone()?)?;
    }
    Ok(all)
}

/// These sets, with one more behind them: as long as there are two of one size at the end, they become one.
fn settled(
    alloc: Global,
    sets: &[Rc<IndexSet<RcStr>>],
    more: IndexSet<RcStr>,
) -> Result<Vec<Rc<IndexSet<RcStr>>>, AllocError>
    ensures { IfOk result (λ all. texts_of all.items ≡ texts_of sets.now ++ texts_in more) }
{
    let mut front = sets;
    let mut more = more;
    while let Some(both) = joined_last(alloc, front, &more)? {
        more = both;
        front = &front[..front.len() - 1];
    }
    let mut all = shared_sets(alloc, front)?;
    all.push(Rc::new(alloc, more)?)?;
    Ok(all)
}

/// Whether one of these sets has a name.
fn is_in_sets(sets: &[Rc<IndexSet<RcStr>>], name: &str) -> bool
    ensures { result ≡ list_any (λ n. bytes_eq n name.now) (texts_of sets.now) }
{
    for set in sets {
        if set.contains(name) {
            return true;
        }
    }
    false
}

/// Whether a name is one of these.
fn is_among(names: &[RcStr], name: &str) -> bool
    ensures { result ≡ list_any (λ n. bytes_eq n name.now) (map rc_str_bytes names.now) }
{
    for one in names {
        if one.as_str() == name {
            return true;
        }
    }
    false
}

impl Names {
    /// No names. It takes no memory.
    pub fn new(alloc: Global) -> Names
        ensures { result ≡ [] }
    {
        Names {
            sets: Vec::new(alloc),
            last: Vec::new(alloc),
        }
    }

    /// Whether a name is among them.
    pub fn contains(&self, name: &str) -> bool
        ensures { result ≡ list_any (λ n. bytes_eq n name.now) self.now }
    {
        is_in_sets(self.sets.as_slice(), name) || is_among(self.last.as_slice(), name)
    }

    /// The same names. It takes memory for references, and answers `AllocError` where there is none.
    pub fn share(&self, alloc: Global) -> Result<Names, AllocError>
        ensures { IfOk result (λ names. names ≡ self.now) }
    {
        let sets = shared_sets(alloc, self.sets.as_slice())?;
        let last = shared_names(alloc, self.last.as_slice())?;
        Ok(Names { sets, last })
    }

    /// Puts the last names into a set, unless one of them is there twice.
    fn settle(&mut self, alloc: Global) -> Result<(), AllocError>
        ensures { self.new ≡ self.old }
    {
        let none = Vec::new(alloc);
        if let Some(set) = joined(alloc, self.last.as_slice(), none.as_slice())? {
            self.sets = settled(alloc, self.sets.as_slice(), set)?;
            self.last = none;
        }
        Ok(())
    }

    /// Puts a name last. Of `n` names that are put once each is copied to a new set `log2 (n / 64) + 1` times at most, by reference. It
    /// answers `AllocError` where there is no memory for the name or a set, and the names are as they were.
    pub fn push(&mut self, alloc: Global, name: &str) -> Result<(), AllocError>
        ensures put { OnOk result (self.new ≡ self.old ++ name.now ∷ []) }
        ensures same { OnErr result (self.new ≡ self.old) }
    {
        if self.last.len() == TOGETHER {
            self.settle(alloc)?;
        }
        self.last.push(RcStr::from_str(alloc, name)?)?;
        Ok(())
    }
}
