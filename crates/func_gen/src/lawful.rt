//! The laws are kept.

use crate::emit::{conversion, is_kept, number_cast};
use crate::function_bindgen::FunctionBindgen;
use crate::operand::ExprOperand;
use abi_bindgen::{Asked, Bindgen, Instruction};
use wit_layout::SizeAlign;
use wit_model::{Alignment, ArchitectureSize, List, OutOfMemory, Resolve, WitType};

impl Bindgen for FunctionBindgen<'_> {
    ghost use Rattle.func_gen.specs.FuncSound.{func_sound};
    ghost use Rattle.func_gen.specs.Meaning.{func_meaning};

    type Operand = ExprOperand;

    ghost meaning = { func_meaning };

    ghost sound = { func_sound };

    /// The statements of arguments, constants, casts of core words and scalars, of texts, tuples and records, of enums and flags, of stores,
    /// loads and frees, of variants, options and results that are lowered or lifted, of operands that get locals of their own and of the
    /// call of a core import, the block that calls a method of no resource, the names of an open block, and what the code gives.
    fn emit(
        &mut self,
        resolve: &Resolve,
        inst: &Instruction,
        operands: &mut List<ExprOperand>,
        results: &mut List<ExprOperand>,
    ) -> Result<(), OutOfMemory> {
        if let Some(function) = conversion(inst) {
            return self.convert(resolve, inst, function, operands, results);
        }
        if let Some(to) = number_cast(inst) {
            return self.cast(resolve, inst, to, operands, results);
        }
        if is_kept(inst) {
            return self.keep(resolve, inst, operands, results);
        }
        match *inst {
            Instruction::GetArg(n) => self.get_arg(resolve, n, results),
            Instruction::Flush(n) => self.flush(resolve, n, operands, results),
            Instruction::Return(n) => self.give(resolve, n, operands, results),
            Instruction::I32Const(n) => self.make_number(resolve, n, results),
            Instruction::ConstZero(types) => self.make_zeros(resolve, types, results),
            Instruction::Bitcasts(casts) => self.cast_words(resolve, casts, operands, results),
            Instruction::CallWasm(func) => self.call_core(resolve, func, operands, results),
            Instruction::CallInterface(func) => self.call_method(resolve, func, operands, results),
            _ => self.emit_value(resolve, inst, operands, results),
        }
    }

    fn push_block(&mut self) -> Result<(), OutOfMemory> {
        self.open_block()
    }

    fn finish_block(&mut self, operands: &mut List<ExprOperand>) -> Result<(), OutOfMemory> {
        self.close_block(operands)
    }

    fn return_pointer(
        &mut self,
        size: ArchitectureSize,
        align: Alignment,
    ) -> Result<ExprOperand, OutOfMemory> {
        self.point(Asked { size, align })
    }

    fn sizes(&self) -> &SizeAlign {
        &self.tables.sizes
    }

    fn is_list_canonical(&self, _resolve: &Resolve, _ty: &WitType) -> bool {
        false
    }
}
