//! Which method makes the code of an instruction.

ghost use Rattle.std.specs.Prelude.{◌≡◌, [], true, OnOk};
ghost use Rattle.abi_bindgen.specs.Instructions.{Emits, IsSendable};
ghost use Rattle.func_gen.specs.Dispatch.{is_case_code, is_value_code};
ghost use Rattle.func_gen.specs.Meaning.{func_meaning};

use crate::function_bindgen::FunctionBindgen;
use crate::operand::ExprOperand;
use abi_bindgen::Instruction;
use wit_model::{List, OutOfMemory, Resolve};

impl FunctionBindgen<'_> {
    /// The code of a scalar, a text, a record, a tuple, an enum or flags, and of a block of memory that is freed; of any other instruction
    /// that of `emit_cases`.
    pub(crate) fn emit_value(
        &mut self,
        resolve: &Resolve,
        inst: &Instruction,
        operands: &List<ExprOperand>,
        results: &mut List<ExprOperand>,
    ) -> Result<(), OutOfMemory>
        requires sendable { IsSendable func_meaning resolve.now inst.now operands.now self.old }
        requires value { is_value_code inst.now ≡ true }
        requires empty { results.old ≡ [] }
        ensures { OnOk result (Emits func_meaning resolve.now.types inst.now operands.now results.new self.old self.new) }
    {
        match *inst {
            Instruction::I32FromBool => self.lower_bool(resolve, operands, results),
            Instruction::BoolFromI32 => self.lift_bool(resolve, operands, results),
            Instruction::CharFromI32 => self.lift_char(resolve, operands, results),
            Instruction::StringLower(false) => self.lend_text(resolve, operands, results),
            Instruction::StringLower(true) => self.give_text(resolve, operands, results),
            Instruction::StringLift => self.lift_text(resolve, operands, results),
            Instruction::RecordLower(id) => self.lower_record(resolve, id, operands, results),
            Instruction::RecordLift(id) => self.lift_record(resolve, id, operands, results),
            Instruction::TupleLower(n) => self.lower_tuple(resolve, n, operands, results),
            Instruction::TupleLift(n) => self.lift_tuple(resolve, n, operands, results),
            Instruction::EnumLower(id) => self.lower_enum(resolve, id, operands, results),
            Instruction::EnumLift(id) => self.lift_enum(resolve, id, operands, results),
            Instruction::FlagsLower(id) => self.lower_flags(resolve, id, operands, results),
            Instruction::FlagsLift(id) => self.lift_flags(resolve, id, operands, results),
            Instruction::GuestDeallocate(size, align) => {
                self.free_block(resolve, size, align, operands, results)
            }
            Instruction::GuestDeallocateString => self.free_text(resolve, operands, results),
            _ => self.emit_cases(resolve, inst, operands, results),
        }
    }

    /// The code of a match, and the name of an open block; of any other instruction that of `touch`.
    fn emit_cases(
        &mut self,
        resolve: &Resolve,
        inst: &Instruction,
        operands: &List<ExprOperand>,
        results: &mut List<ExprOperand>,
    ) -> Result<(), OutOfMemory>
        requires sendable { IsSendable func_meaning resolve.now inst.now operands.now self.old }
        requires cases { is_case_code inst.now ≡ true }
        requires empty { results.old ≡ [] }
        ensures { OnOk result (Emits func_meaning resolve.now.types inst.now operands.now results.new self.old self.new) }
    {
        match *inst {
            Instruction::VariantLower(id, n) => {
                self.lower_variant(resolve, id, n, operands, results)
            }
            Instruction::OptionLower(id, n) => {
                self.lower_option(resolve, id, n, operands, results)
            }
            Instruction::ResultLower(id, n) => {
                self.lower_result(resolve, id, n, operands, results)
            }
            Instruction::VariantLift(id) => self.lift_variant(resolve, id, operands, results),
            Instruction::OptionLift(id) => self.lift_option(resolve, id, operands, results),
            Instruction::ResultLift(id) => self.lift_result(resolve, id, operands, results),
            Instruction::GuestDeallocateVariant(n) => {
                self.free_variant(resolve, n, operands, results)
            }
            Instruction::VariantPayloadName => self.read_name(resolve, inst, "e", results),
            Instruction::IterElem => self.read_name(resolve, inst, "e", results),
            Instruction::IterMapKey => self.read_name(resolve, inst, "map_key", results),
            Instruction::IterMapValue => self.read_name(resolve, inst, "map_value", results),
            Instruction::IterBasePointer => self.read_name(resolve, inst, "base", results),
            _ => self.touch(resolve, inst, operands, results),
        }
    }
}
