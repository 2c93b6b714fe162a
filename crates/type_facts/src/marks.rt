//! Marks on the types of a table.

ghost use Rattle.std.specs.Prelude.{◌≡◌, length, replicate, slice_index_or, false, IfOk};
ghost use Rattle.type_facts.specs.Passes.{Spreads, given, mark, mark_all, mark_from, mark_part};
ghost use Rattle.wit_model.specs.Parts.{parts};
ghost use Rattle.wit_model.specs.TypeOrder.{GoesDown};

use std::alloc::Global;
use std::marker::Model;
use wit_model::{OutOfMemory, TypeDef, TypeDefKind, WitType};

/// A mark for each type of the table.
#[derive(Drop)]
pub(crate) struct Marks {
    items: Vec<bool>,
}

impl Model for Marks {
    ghost use Rattle.std.specs.Prelude.{Bool, List};

    ghost Value = { List Bool };

    ghost view = { λ it. it.items.items };
}

impl Marks {
    /// No type is marked.
    pub(crate) fn none(alloc: Global, count: usize) -> Result<Marks, OutOfMemory>
        ensures { IfOk result (λ marks. marks ≡ replicate count false) }
    {
        Ok(Marks {
            items: vec![in alloc; false; count]?,
        })
    }

    /// Whether a type is marked.
    pub(crate) fn is_marked(&self, index: usize) -> bool
        ensures { result ≡ slice_index_or self.now index false }
    {
        match self.items.get(index) {
            None => false,
            Some(marked) => *marked,
        }
    }

    /// Marks a type, where it is one of the table.
    pub(crate) fn mark(&mut self, ty: WitType)
        ensures { self.new ≡ mark self.old ty }
    {
        if let WitType::Id(id) = ty {
            let index = id.0 as usize;
            if index < self.items.len() {
                self.items[index] = true;
            }
        }
    }

    /// Marks the type of a part or a result, where there is one.
    pub(crate) fn mark_part(&mut self, part: Option<WitType>)
        ensures { self.new ≡ mark_part self.old part }
    {
        match part {
            None => {}
            Some(ty) => self.mark(ty),
        }
    }

    fn mark_parts(&mut self, kind: &TypeDefKind)
        ensures { self.new ≡ mark_all self.old (given (parts kind.now)) }
    {
        for nth in 0..kind.part_count() {
            self.mark_part(kind.part(nth));
        }
    }

    fn mark_from(&mut self, index: usize, kind: &TypeDefKind)
        ensures { self.new ≡ mark_from self.old index kind.now }
    {
        if self.is_marked(index) {
            self.mark_parts(kind);
        }
    }

    /// Marks whatever the marked types reach.
    pub(crate) fn spread(&mut self, types: &[TypeDef])
        requires down { GoesDown types.now }
        requires count { length self.old ≡ length types.now }
        ensures { Spreads types.now self.old self.new }
    {
        let mut left = types.len();
        while left > 0 {
            left -= 1;
            self.mark_from(left, &types[left].kind);
        }
    }
}
