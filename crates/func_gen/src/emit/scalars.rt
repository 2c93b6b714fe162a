//! Scalars become core words, and core words scalars.

ghost use Rattle.std.specs.Prelude.{◌≡◌, [], Some, true, length, OnOk};
ghost use Rattle.abi_bindgen.specs.Instructions.{Emits};
ghost use Rattle.abi_bindgen.specs.declared.instruction.Instruction.TheVariants as instruction;
ghost use Rattle.func_gen.specs.Forms.{conversion, is_kept, number_cast};
ghost use Rattle.func_gen.specs.Meaning.{func_meaning};

use crate::added::only_operand;
use crate::forms::runtime_call;
use crate::function_bindgen::FunctionBindgen;
use crate::operand::ExprOperand;
use abi_bindgen::Instruction;
use rust_tree::{CastType, Expr, RuntimeItem};
use wit_model::{Boxed, List, OutOfMemory, Resolve};

/// The function of `_rt` that gives the core word of a number or a char.
pub(crate) fn conversion(inst: &Instruction) -> Option<RuntimeItem>
    ensures { result ≡ conversion inst.now }
{
    match *inst {
        Instruction::I32FromU8 => Some(RuntimeItem::AsI32),
        Instruction::I32FromS8 => Some(RuntimeItem::AsI32),
        Instruction::I32FromU16 => Some(RuntimeItem::AsI32),
        Instruction::I32FromS16 => Some(RuntimeItem::AsI32),
        Instruction::I32FromU32 => Some(RuntimeItem::AsI32),
        Instruction::I32FromS32 => Some(RuntimeItem::AsI32),
        Instruction::I32FromChar => Some(RuntimeItem::AsI32),
        Instruction::I64FromU64 => Some(RuntimeItem::AsI64),
        Instruction::I64FromS64 => Some(RuntimeItem::AsI64),
        Instruction::CoreF32FromF32 => Some(RuntimeItem::AsF32),
        Instruction::CoreF64FromF64 => Some(RuntimeItem::AsF64),
        _ => None,
    }
}

/// The type to which a word is cast that becomes a number.
pub(crate) fn number_cast(inst: &Instruction) -> Option<CastType>
    ensures { result ≡ number_cast inst.now }
{
    match *inst {
        Instruction::U8FromI32 => Some(CastType::U8),
        Instruction::S8FromI32 => Some(CastType::I8),
        Instruction::U16FromI32 => Some(CastType::U16),
        Instruction::S16FromI32 => Some(CastType::I16),
        Instruction::U32FromI32 => Some(CastType::U32),
        Instruction::U64FromI64 => Some(CastType::U64),
        _ => None,
    }
}

/// Whether a word is a number as it is.
pub(crate) fn is_kept(inst: &Instruction) -> bool
    ensures { result ≡ is_kept inst.now }
{
    match *inst {
        Instruction::S32FromI32 => true,
        Instruction::S64FromI64 => true,
        Instruction::F32FromCoreF32 => true,
        Instruction::F64FromCoreF64 => true,
        _ => false,
    }
}

impl FunctionBindgen<'_> {
    pub(crate) fn convert(
        &mut self,
        resolve: &Resolve,
        inst: &Instruction,
        function: RuntimeItem,
        operands: &List<ExprOperand>,
        results: &mut List<ExprOperand>,
    ) -> Result<(), OutOfMemory>
        requires conversion { conversion inst.now ≡ Some function }
        requires one { length operands.now ≡ 1 }
        requires empty { results.old ≡ [] }
        ensures { OnOk result (Emits func_meaning resolve.now.types inst.now operands.now results.new self.old self.new) }
    {
        let e = only_operand(self.alloc, operands)?;
        let expr = runtime_call(self.alloc, function, e)?;
        self.ask(function)?;
        results.push(ExprOperand { expr, kept: false })?;
        Ok(())
    }

    pub(crate) fn cast(
        &mut self,
        resolve: &Resolve,
        inst: &Instruction,
        to: CastType,
        operands: &List<ExprOperand>,
        results: &mut List<ExprOperand>,
    ) -> Result<(), OutOfMemory>
        requires cast { number_cast inst.now ≡ Some to }
        requires one { length operands.now ≡ 1 }
        requires empty { results.old ≡ [] }
        ensures { OnOk result (Emits func_meaning resolve.now.types inst.now operands.now results.new self.old self.new) }
    {
        let e = only_operand(self.alloc, operands)?;
        let expr = Expr::Cast(Boxed::new(self.alloc, e)?, to);
        results.push(ExprOperand { expr, kept: false })?;
        Ok(())
    }

    pub(crate) fn keep(
        &mut self,
        resolve: &Resolve,
        inst: &Instruction,
        operands: &List<ExprOperand>,
        results: &mut List<ExprOperand>,
    ) -> Result<(), OutOfMemory>
        requires kept { is_kept inst.now ≡ true }
        requires one { length operands.now ≡ 1 }
        requires empty { results.old ≡ [] }
        ensures { OnOk result (Emits func_meaning resolve.now.types inst.now operands.now results.new self.old self.new) }
    {
        let expr = only_operand(self.alloc, operands)?;
        results.push(ExprOperand { expr, kept: true })?;
        Ok(())
    }
}

impl FunctionBindgen<'_> {
    pub(crate) fn lower_bool(
        &mut self,
        resolve: &Resolve,
        operands: &List<ExprOperand>,
        results: &mut List<ExprOperand>,
    ) -> Result<(), OutOfMemory>
        requires one { length operands.now ≡ 1 }
        requires empty { results.old ≡ [] }
        ensures { OnOk result (Emits func_meaning resolve.now.types instruction.I32FromBool operands.now results.new self.old self.new) }
    {
        let e = only_operand(self.alloc, operands)?;
        let word = Expr::I32FromBool(Boxed::new(self.alloc, e)?);
        let name = self.add_let("b", word)?;
        let expr = Expr::Local(name);
        results.push(ExprOperand { expr, kept: false })?;
        Ok(())
    }

    pub(crate) fn lift_bool(
        &mut self,
        resolve: &Resolve,
        operands: &List<ExprOperand>,
        results: &mut List<ExprOperand>,
    ) -> Result<(), OutOfMemory>
        requires one { length operands.now ≡ 1 }
        requires empty { results.old ≡ [] }
        ensures { OnOk result (Emits func_meaning resolve.now.types instruction.BoolFromI32 operands.now results.new self.old self.new) }
    {
        self.ask(RuntimeItem::BoolLift)?;
        let e = only_operand(self.alloc, operands)?;
        let number = Expr::Cast(Boxed::new(self.alloc, e)?, CastType::U8);
        let lifted = runtime_call(self.alloc, RuntimeItem::BoolLift, number)?;
        let name = self.add_let("b", lifted)?;
        let expr = Expr::Local(name);
        results.push(ExprOperand { expr, kept: false })?;
        Ok(())
    }

    pub(crate) fn lift_char(
        &mut self,
        resolve: &Resolve,
        operands: &List<ExprOperand>,
        results: &mut List<ExprOperand>,
    ) -> Result<(), OutOfMemory>
        requires one { length operands.now ≡ 1 }
        requires empty { results.old ≡ [] }
        ensures { OnOk result (Emits func_meaning resolve.now.types instruction.CharFromI32 operands.now results.new self.old self.new) }
    {
        self.ask(RuntimeItem::CharLift)?;
        let e = only_operand(self.alloc, operands)?;
        let number = Expr::Cast(Boxed::new(self.alloc, e)?, CastType::U32);
        let lifted = runtime_call(self.alloc, RuntimeItem::CharLift, number)?;
        let name = self.add_let("c", lifted)?;
        let expr = Expr::Local(name);
        results.push(ExprOperand { expr, kept: false })?;
        Ok(())
    }
}
