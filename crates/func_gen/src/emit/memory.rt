//! Core words are stored in memory.

ghost use Rattle.std.specs.Prelude.{◌≡◌, [], ◌∷◌, Some, true, length, IfOk, OnOk};
ghost use Rattle.rust_tree.specs.declared.stmt.Stmt.TheVariants as stmt;
ghost use Rattle.abi_bindgen.specs.Instructions.{Emits};
ghost use Rattle.func_gen.specs.Added.{Appends};
ghost use Rattle.func_gen.specs.Forms.{operand_of};
ghost use Rattle.func_gen.specs.InwardCode.{are_inward_stmts};
ghost use Rattle.func_gen.specs.Meaning.{func_meaning};
ghost use Rattle.func_gen.specs.MemoryForms.{small_store, whole_store};
ghost use Rattle.func_gen.specs.Operand.{is_operand};
ghost use Rattle.func_gen.specs.PartForms.{exprs_of};

use crate::function_bindgen::FunctionBindgen;
use crate::operand::{ExprOperand, copy_expr};
use abi_bindgen::Instruction;
use rust_tree::{Expr, SmallType, Stmt};
use std::alloc::Global;
use wit_model::{ArchitectureSize, List, OutOfMemory, Resolve, WasmType};

/// At which offset a whole word of which type is stored.
pub(crate) fn whole_store(inst: &Instruction) -> Option<(ArchitectureSize, WasmType)>
    ensures { result ≡ whole_store inst.now }
{
    match *inst {
        Instruction::I32Store(o) => Some((o, WasmType::I32)),
        Instruction::I64Store(o) => Some((o, WasmType::I64)),
        Instruction::F32Store(o) => Some((o, WasmType::F32)),
        Instruction::F64Store(o) => Some((o, WasmType::F64)),
        Instruction::PointerStore(o) => Some((o, WasmType::Pointer)),
        Instruction::LengthStore(o) => Some((o, WasmType::Length)),
        _ => None,
    }
}

/// At which offset the low bytes of a word are stored, and as which small number.
pub(crate) fn small_store(inst: &Instruction) -> Option<(ArchitectureSize, SmallType)>
    ensures { result ≡ small_store inst.now }
{
    match *inst {
        Instruction::I32Store8(o) => Some((o, SmallType::U8)),
        Instruction::I32Store16(o) => Some((o, SmallType::U16)),
        _ => None,
    }
}

/// The expressions of the two operands.
pub(crate) fn both_exprs(operands: &List<ExprOperand>) -> (&Expr, &Expr)
    requires { length operands.now ≡ 2 }
    ensures both { exprs_of operands.now ≡ result.0.now ∷ result.1.now ∷ [] }
    ensures first { is_operand result.0.now ≡ true }
    ensures second { is_operand result.1.now ≡ true }
{
    let [a, b] = operands.as_slice() else {
        unreachable!()
    };
    (&a.expr, &b.expr)
}

/// The same, copied.
fn both_operands(alloc: Global, operands: &List<ExprOperand>) -> Result<(Expr, Expr), OutOfMemory>
    requires { length operands.now ≡ 2 }
    ensures both { IfOk result (λ es. exprs_of operands.now ≡ es.0 ∷ es.1 ∷ []) }
    ensures first { IfOk result (λ es. is_operand es.0 ≡ true) }
    ensures second { IfOk result (λ es. is_operand es.1 ≡ true) }
{
    let (first, second) = both_exprs(operands);
    let first = copy_expr(first, alloc)?;
    Ok((first, copy_expr(second, alloc)?))
}

impl FunctionBindgen<'_> {
    /// A statement that declares no name.
    pub(crate) fn add_effect(&mut self, effect: Stmt) -> Result<(), OutOfMemory>
        requires inward { are_inward_stmts (effect ∷ []) ≡ true }
        ensures adds { OnOk result (Appends self.old self.new (effect ∷ []) []) }
        ensures scope { OnOk result (self.new.scope ≡ self.old.scope) }
    {
        self.code.stmts.push(effect)?;
        Ok(())
    }

    pub(crate) fn store(
        &mut self,
        resolve: &Resolve,
        inst: &Instruction,
        place: (ArchitectureSize, WasmType),
        operands: &List<ExprOperand>,
        results: &mut List<ExprOperand>,
    ) -> Result<(), OutOfMemory>
        requires store { whole_store inst.now ≡ Some place }
        requires two { length operands.now ≡ 2 }
        requires empty { results.old ≡ [] }
        ensures { OnOk result (Emits func_meaning resolve.now.types inst.now operands.now results.new self.old self.new) }
    {
        let (value, address) = both_operands(self.alloc, operands)?;
        self.add_effect(Stmt::Store(address, place.0, place.1, value))?;
        Ok(())
    }

    pub(crate) fn store_low(
        &mut self,
        resolve: &Resolve,
        inst: &Instruction,
        place: (ArchitectureSize, SmallType),
        operands: &List<ExprOperand>,
        results: &mut List<ExprOperand>,
    ) -> Result<(), OutOfMemory>
        requires store { small_store inst.now ≡ Some place }
        requires two { length operands.now ≡ 2 }
        requires empty { results.old ≡ [] }
        ensures { OnOk result (Emits func_meaning resolve.now.types inst.now operands.now results.new self.old self.new) }
    {
        let (value, address) = both_operands(self.alloc, operands)?;
        self.add_effect(Stmt::StoreSmall(address, place.0, place.1, value))?;
        Ok(())
    }
}
