//! A size as a Rust expression.

ghost use Rattle.std.specs.Prelude.{◌≡◌, ◌++◌, IfOk, OnOk, false, decimal};
ghost use Rattle.wit_model.specs.SizeText.{mark_text, pointers_text, bracketed, size_text, alignment_text};

use crate::memory::OutOfMemory;
use crate::size::{Alignment, ArchitectureSize};
use crate::text::Text;
use std::alloc::Global;

/// The fixed words of a size as a Rust expression.
#[derive(Clone, Copy)]
enum Mark {
    PointerSize,
    Plus,
    Times,
    Open,
    Close,
}

#[tactic(auto, unfolding(crate::specs::SizeText::mark_text))]
fn spelled(mark: Mark) -> &'static str
    ensures { result.now ≡ mark_text mark }
{
    match mark {
        Mark::PointerSize => "::core::mem::size_of::<*const u8>()",
        Mark::Plus => "+",
        Mark::Times => "*",
        Mark::Open => "(",
        Mark::Close => ")",
    }
}

fn put(out: &mut Text, mark: Mark) -> Result<(), OutOfMemory>
    ensures { OnOk result (out.new ≡ out.old ++ mark_text mark) }
{
    out.push_str(spelled(mark))
}

fn push_pointers(out: &mut Text, n: u64) -> Result<(), OutOfMemory>
    ensures { OnOk result (out.new ≡ out.old ++ pointers_text n) }
{
    out.push_number(n)?;
    put(out, Mark::Times)?;
    put(out, Mark::PointerSize)
}

fn push_sum(out: &mut Text, bytes: u64, pointers: u64) -> Result<(), OutOfMemory>
    ensures { OnOk result (out.new ≡ out.old ++ (decimal bytes ++ mark_text Mark.Plus ++ pointers_text pointers)) }
{
    out.push_number(bytes)?;
    put(out, Mark::Plus)?;
    push_pointers(out, pointers)
}

fn push_bracketed_pointers(out: &mut Text, plain: bool, n: u64) -> Result<(), OutOfMemory>
    ensures { OnOk result (out.new ≡ out.old ++ bracketed plain (pointers_text n)) }
{
    if plain {
        return push_pointers(out, n);
    }
    put(out, Mark::Open)?;
    push_pointers(out, n)?;
    put(out, Mark::Close)
}

fn push_bracketed_sum(
    out: &mut Text,
    plain: bool,
    bytes: u64,
    pointers: u64,
) -> Result<(), OutOfMemory>
    ensures { OnOk result
        (out.new ≡ out.old ++ bracketed plain (decimal bytes ++ mark_text Mark.Plus ++ pointers_text pointers)) }
{
    if plain {
        return push_sum(out, bytes, pointers);
    }
    put(out, Mark::Open)?;
    push_sum(out, bytes, pointers)?;
    put(out, Mark::Close)
}

impl ArchitectureSize {
    /// Puts the size behind a text, as `format_term` gives it.
    pub fn push_term(&self, out: &mut Text, plain: bool) -> Result<(), OutOfMemory>
        ensures { OnOk result (out.new ≡ out.old ++ size_text plain self.now) }
    {
        match (self.bytes, self.pointers) {
            (bytes, 0) => out.push_number(bytes),
            (0, 1) => put(out, Mark::PointerSize),
            (0, n) => push_bracketed_pointers(out, plain, n),
            (bytes, n) => push_bracketed_sum(out, plain, bytes, n),
        }
    }

    /// The size as a Rust expression. With `PS` for the size of a pointer, it is the number of bytes where there is no
    /// pointer, `PS` for one pointer alone, `n*PS` for several, and else `bytes+n*PS`. The last two stand in brackets,
    /// unless `plain` is asked for.
    pub fn format_term(&self, alloc: Global, plain: bool) -> Result<Text, OutOfMemory>
        ensures { IfOk result (λ t. t ≡ size_text plain self.now) }
    {
        let mut out = Text::new(alloc);
        self.push_term(&mut out, plain)?;
        Ok(out)
    }

    /// The size as a Rust expression that may stand in a product.
    pub fn format(&self, alloc: Global) -> Result<Text, OutOfMemory>
        ensures { IfOk result (λ t. t ≡ size_text false self.now) }
    {
        self.format_term(alloc, false)
    }
}

impl Alignment {
    /// Puts the alignment behind a text, as `format` gives it.
    pub fn push(&self, out: &mut Text) -> Result<(), OutOfMemory>
        ensures { OnOk result (out.new ≡ out.old ++ alignment_text self.now) }
    {
        match self {
            Alignment::Pointer => put(out, Mark::PointerSize),
            Alignment::Bytes(n) => out.push_number(u64::from(*n)),
        }
    }

    /// The alignment as a Rust expression: the number of bytes, or the size of a pointer.
    pub fn format(&self, alloc: Global) -> Result<Text, OutOfMemory>
        ensures { IfOk result (λ t. t ≡ alignment_text self.now) }
    {
        let mut out = Text::new(alloc);
        self.push(&mut out)?;
        Ok(out)
    }
}
