//! Flags become the words of their bits, and are made of words.

ghost use Rattle.std.specs.Prelude.{◌≡◌, ◌≤◌, ◌++◌, [], Some, true, length, IfOk, OnOk};
ghost use Rattle.abi_bindgen.specs.Instructions.{Emits, IsSendable, Reads};
ghost use Rattle.abi_bindgen.specs.declared.instruction.Instruction.TheVariants as instruction;
ghost use Rattle.func_gen.specs.FlagsForms.{HasWordCount, MakesFlags, flags_at, operands_of, shifted_from, words_of};
ghost use Rattle.func_gen.specs.Meaning.{func_meaning};
ghost use Rattle.func_gen.specs.PartForms.{are_operands, exprs_of};
ghost use Rattle.func_gen.specs.Written.{WritesFlags};
ghost use Rattle.func_gen.specs.declared.flags_site.FlagsSite.{FlagsSite};

use crate::added::only_operand;
use crate::flags_site::FlagsSite;
use crate::function_bindgen::FunctionBindgen;
use crate::operand::{ExprOperand, copy_expr, copy_path};
use crate::type_site::TypeSite;
use rust_tree::Expr;
use std::alloc::Global;
use wit_model::{List, OutOfMemory, Resolve, Text, TypeId};

/// The words of the flags in a local, the lowest first.
fn push_words(
    alloc: Global,
    name: &Text,
    count: u32,
    results: &mut List<ExprOperand>,
) -> Result<(), OutOfMemory>
    requires { count ≤ 4 }
    ensures { OnOk result (results.new ≡ results.old ++ operands_of (words_of name.now 0 count)) }
{
    for word in 0..count {
        let expr = Expr::FlagsBits(name.copy(alloc)?, 32 * word);
        results.push(ExprOperand { expr, kept: false })?;
    }
    Ok(())
}

/// The expressions of operands, each shifted behind those before it.
fn shifted_exprs(alloc: Global, operands: &[ExprOperand]) -> Result<List<(u32, Expr)>, OutOfMemory>
    requires { length operands.now ≤ 4 }
    ensures same { IfOk result (λ es. es ≡ shifted_from 0 (exprs_of operands.now)) }
    ensures operands { IfOk result (λ es. are_operands operands.now ≡ true) }
{
    let mut es = List::new(alloc);
    for (at, operand) in operands.iter().enumerate() {
        es.push((32 * at as u32, copy_expr(&operand.expr, alloc)?))?;
    }
    Ok(es)
}

/// How a flags type of the table is written.
fn flags_site(sites: &[Option<TypeSite>], id: TypeId) -> &FlagsSite
    requires { (s : FlagsSite) × (flags_at sites.now id.0 ≡ Some s) }
    ensures { flags_at sites.now id.0 ≡ Some result.now }
{
    match &sites[id.0 as usize] {
        Some(TypeSite::Flags(site)) => site,
        _ => unreachable!(),
    }
}

impl FunctionBindgen<'_> {
    /// How many words the flags at a place of the table are.
    fn word_count(&self, resolve: &Resolve, id: TypeId) -> u32
        requires { WritesFlags resolve.now.types self.now.sites id.0 }
        ensures { HasWordCount resolve.now.types self.now.sites id.0 result }
    {
        let site = flags_site(self.tables.sites.as_slice(), id);
        site.members.div_ceil(32)
    }

    /// The expression that makes flags of words.
    fn flags_expr(
        &self,
        resolve: &Resolve,
        id: TypeId,
        operands: &List<ExprOperand>,
    ) -> Result<Expr, OutOfMemory>
        requires site { WritesFlags resolve.now.types self.now.sites id.0 }
        requires reads { Reads resolve.now.types (instruction.FlagsLift id) (length operands.now) }
        ensures { IfOk result (λ e. MakesFlags resolve.now.types self.now.sites id.0 operands.now e) }
    {
        let site = flags_site(self.tables.sites.as_slice(), id);
        let path = copy_path(&site.path, self.alloc)?;
        let words = shifted_exprs(self.alloc, operands.as_slice())?;
        Ok(Expr::FlagsOfWords(path, site.repr, words))
    }

    pub(crate) fn lower_flags(
        &mut self,
        resolve: &Resolve,
        id: TypeId,
        operands: &List<ExprOperand>,
        results: &mut List<ExprOperand>,
    ) -> Result<(), OutOfMemory>
        requires sendable { IsSendable func_meaning resolve.now (instruction.FlagsLower id) operands.now self.old }
        requires empty { results.old ≡ [] }
        ensures { OnOk result (Emits func_meaning resolve.now.types (instruction.FlagsLower id) operands.now results.new self.old self.new) }
    {
        let count = self.word_count(resolve, id);
        let e = only_operand(self.alloc, operands)?;
        let name = self.add_let("flags", e)?;
        push_words(self.alloc, &name, count, results)?;
        Ok(())
    }

    pub(crate) fn lift_flags(
        &mut self,
        resolve: &Resolve,
        id: TypeId,
        operands: &List<ExprOperand>,
        results: &mut List<ExprOperand>,
    ) -> Result<(), OutOfMemory>
        requires sendable { IsSendable func_meaning resolve.now (instruction.FlagsLift id) operands.now self.old }
        requires empty { results.old ≡ [] }
        ensures { OnOk result (Emits func_meaning resolve.now.types (instruction.FlagsLift id) operands.now results.new self.old self.new) }
    {
        let flags = self.flags_expr(resolve, id, operands)?;
        let name = self.add_let("flags", flags)?;
        let expr = Expr::Local(name);
        results.push(ExprOperand { expr, kept: false })?;
        Ok(())
    }
}
