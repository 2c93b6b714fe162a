//! Core words are loaded from memory.

ghost use Rattle.std.specs.Prelude.{◌≡◌, [], Some, length, OnOk};
ghost use Rattle.abi_bindgen.specs.Instructions.{Emits};
ghost use Rattle.func_gen.specs.Meaning.{func_meaning};
ghost use Rattle.func_gen.specs.MemoryForms.{small_load, whole_load};

use crate::added::only_operand;
use crate::function_bindgen::FunctionBindgen;
use crate::operand::ExprOperand;
use abi_bindgen::Instruction;
use rust_tree::{Expr, SmallType};
use wit_model::{ArchitectureSize, Boxed, List, OutOfMemory, Resolve, WasmType};

/// At which offset a whole word of which type is loaded.
pub(crate) fn whole_load(inst: &Instruction) -> Option<(ArchitectureSize, WasmType)>
    ensures { result ≡ whole_load inst.now }
{
    match *inst {
        Instruction::I32Load(o) => Some((o, WasmType::I32)),
        Instruction::I64Load(o) => Some((o, WasmType::I64)),
        Instruction::F32Load(o) => Some((o, WasmType::F32)),
        Instruction::F64Load(o) => Some((o, WasmType::F64)),
        Instruction::PointerLoad(o) => Some((o, WasmType::Pointer)),
        Instruction::LengthLoad(o) => Some((o, WasmType::Length)),
        _ => None,
    }
}

/// At which offset which small number is loaded, as a word.
pub(crate) fn small_load(inst: &Instruction) -> Option<(ArchitectureSize, SmallType)>
    ensures { result ≡ small_load inst.now }
{
    match *inst {
        Instruction::I32Load8U(o) => Some((o, SmallType::U8)),
        Instruction::I32Load8S(o) => Some((o, SmallType::I8)),
        Instruction::I32Load16U(o) => Some((o, SmallType::U16)),
        Instruction::I32Load16S(o) => Some((o, SmallType::I16)),
        _ => None,
    }
}

impl FunctionBindgen<'_> {
    pub(crate) fn load(
        &mut self,
        resolve: &Resolve,
        inst: &Instruction,
        place: (ArchitectureSize, WasmType),
        operands: &List<ExprOperand>,
        results: &mut List<ExprOperand>,
    ) -> Result<(), OutOfMemory>
        requires load { whole_load inst.now ≡ Some place }
        requires one { length operands.now ≡ 1 }
        requires empty { results.old ≡ [] }
        ensures { OnOk result (Emits func_meaning resolve.now.types inst.now operands.now results.new self.old self.new) }
    {
        let address = only_operand(self.alloc, operands)?;
        let word = Expr::Load(Boxed::new(self.alloc, address)?, place.0, place.1);
        let name = self.add_let("l", word)?;
        let expr = Expr::Local(name);
        results.push(ExprOperand { expr, kept: false })?;
        Ok(())
    }

    pub(crate) fn load_low(
        &mut self,
        resolve: &Resolve,
        inst: &Instruction,
        place: (ArchitectureSize, SmallType),
        operands: &List<ExprOperand>,
        results: &mut List<ExprOperand>,
    ) -> Result<(), OutOfMemory>
        requires load { small_load inst.now ≡ Some place }
        requires one { length operands.now ≡ 1 }
        requires empty { results.old ≡ [] }
        ensures { OnOk result (Emits func_meaning resolve.now.types inst.now operands.now results.new self.old self.new) }
    {
        let address = only_operand(self.alloc, operands)?;
        let word = Expr::LoadSmall(Boxed::new(self.alloc, address)?, place.0, place.1);
        let name = self.add_let("l", word)?;
        let expr = Expr::Local(name);
        results.push(ExprOperand { expr, kept: false })?;
        Ok(())
    }
}
