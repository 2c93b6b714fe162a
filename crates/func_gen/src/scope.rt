//! The numbers of a wrapper's locals.

ghost use Rattle.std.specs.Prelude.{◌≡◌, ◌+◌, ◌^◌, ◌<◌, ◌++◌, IfOk, OnOk};
ghost use Rattle.func_gen.specs.Scope.{Declares, DeclaresAs, IsLeastFree, Keeps, is_free, names_at, numbered};

use local_names::Names;
use std::alloc::Global;
use wit_model::{List, OutOfMemory, Text};

/// A name that gets a number: what stands before it, and where there are several of one name, which of them it is.
#[derive(Clone, Copy)]
pub(crate) struct LocalName<'a> {
    pub(crate) prefix: &'a str,
    pub(crate) part: Option<usize>,
}

/// The names that a wrapper uses so far, and the counter from which the next number is looked for.
#[derive(Drop)]
pub(crate) struct Scope {
    pub(crate) used: Names,
    pub(crate) next: u32,
}

/// A name with its number.
#[tactic(auto, unfolding(crate::specs::Scope::part_mark))]
pub(crate) fn numbered(alloc: Global, name: LocalName<'_>, t: u32) -> Result<Text, OutOfMemory>
    ensures { IfOk result (λ text. text ≡ numbered name.entry t) }
{
    let mut text = Text::from_str(alloc, name.prefix)?;
    text.push_number(u64::from(t))?;
    if let Some(part) = name.part {
        text.push_str("_")?;
        text.push_number(part as u64)?;
    }
    Ok(text)
}

fn is_free(
    alloc: Global,
    used: &Names,
    names: &[LocalName<'_>],
    t: u32,
) -> Result<bool, OutOfMemory>
    ensures { IfOk result (λ b. b ≡ is_free used.now names.now t) }
{
    for name in names {
        let text = numbered(alloc, *name, t)?;
        if used.contains(text.as_str()) {
            return Ok(false);
        }
    }
    Ok(true)
}

/// Puts the names with this number behind the others. Where there is no memory some of them may stand there.
fn use_names(
    alloc: Global,
    used: &mut Names,
    names: &[LocalName<'_>],
    t: u32,
) -> Result<(), OutOfMemory>
    ensures used { OnOk result (used.new ≡ used.old ++ names_at names.now t) }
    ensures keeps { Keeps used.old used.new }
{
    for name in names {
        used.push(alloc, numbered(alloc, *name, t)?.as_str())?;
    }
    Ok(())
}

fn names_at(alloc: Global, names: &[LocalName<'_>], t: u32) -> Result<List<Text>, OutOfMemory>
    ensures { IfOk result (λ texts. texts ≡ names_at names.now t) }
{
    let mut texts = List::new(alloc);
    for name in names {
        texts.push(numbered(alloc, *name, t)?)?;
    }
    Ok(texts)
}

/// The least number, not below the counter, at which none of the names is used. There is no memory also where a `u32`
/// holds no such number.
fn free_number(
    alloc: Global,
    used: &Names,
    next: u32,
    names: &[LocalName<'_>],
) -> Result<u32, OutOfMemory>
    ensures { IfOk result (λ t. IsLeastFree used.now next names.now t × (t + 1 < 2 ^ 32)) }
{
    for t in next..u32::MAX {
        if is_free(alloc, used, names, t)? {
            return Ok(t);
        }
    }
    Err(OutOfMemory)
}

impl Scope {
    /// The number of an operation that declares these names, which are used from then on. One that declares none takes no number.
    pub(crate) fn declare(
        &mut self,
        alloc: Global,
        names: &[LocalName<'_>],
    ) -> Result<u32, OutOfMemory>
        ensures declares { IfOk result (λ t. Declares self.old names.now t self.new) }
        ensures keeps { Keeps self.old.used self.new.used }
    {
        if names.is_empty() {
            return Ok(self.next);
        }
        let t = free_number(alloc, &self.used, self.next, names)?;
        use_names(alloc, &mut self.used, names, t)?;
        self.next = t + 1;
        Ok(t)
    }

    /// The names of an operation that declares some, which get one number.
    pub(crate) fn declare_all(
        &mut self,
        alloc: Global,
        names: &[LocalName<'_>],
    ) -> Result<List<Text>, OutOfMemory>
        ensures declares { IfOk result (λ texts. DeclaresAs self.old names.now texts self.new) }
        ensures keeps { Keeps self.old.used self.new.used }
    {
        let t = self.declare(alloc, names)?;
        names_at(alloc, names, t)
    }
}
