//! Constants are core words as they are.

ghost use Rattle.std.specs.Prelude.{◌≡◌, ◌++◌, [], OnOk};
ghost use Rattle.abi_bindgen.specs.Instructions.{Emits};
ghost use Rattle.abi_bindgen.specs.declared.instruction.Instruction.TheVariants as instruction;
ghost use Rattle.func_gen.specs.CastForms.{zero_expr, zero_operands};
ghost use Rattle.func_gen.specs.Meaning.{func_meaning};

use crate::function_bindgen::FunctionBindgen;
use crate::operand::ExprOperand;
use rust_tree::{Expr, ZeroType};
use wit_model::{List, OutOfMemory, Resolve, WasmType};

/// The zero of a core type.
fn zero_expr(ty: WasmType) -> Expr
    ensures { result ≡ zero_expr ty }
{
    match ty {
        WasmType::I32 => Expr::I32Const(0),
        WasmType::I64 => Expr::Zero(ZeroType::I64),
        WasmType::F32 => Expr::Zero(ZeroType::F32),
        WasmType::F64 => Expr::Zero(ZeroType::F64),
        WasmType::Pointer => Expr::Zero(ZeroType::Pointer),
        WasmType::PointerOrI64 => Expr::Zero(ZeroType::PointerOrI64),
        WasmType::Length => Expr::Zero(ZeroType::Length),
    }
}

fn push_zeros(types: &[WasmType], results: &mut List<ExprOperand>) -> Result<(), OutOfMemory>
    ensures { OnOk result (results.new ≡ results.old ++ zero_operands types.now) }
{
    for ty in types {
        let expr = zero_expr(*ty);
        results.push(ExprOperand { expr, kept: false })?;
    }
    Ok(())
}

impl FunctionBindgen<'_> {
    pub(crate) fn make_number(
        &mut self,
        resolve: &Resolve,
        number: i32,
        results: &mut List<ExprOperand>,
    ) -> Result<(), OutOfMemory>
        requires empty { results.old ≡ [] }
        ensures { OnOk result (Emits func_meaning resolve.now.types (instruction.I32Const number) [] results.new self.old self.new) }
    {
        let expr = Expr::I32Const(number);
        results.push(ExprOperand { expr, kept: false })?;
        Ok(())
    }

    pub(crate) fn make_zeros(
        &mut self,
        resolve: &Resolve,
        types: &[WasmType],
        results: &mut List<ExprOperand>,
    ) -> Result<(), OutOfMemory>
        requires empty { results.old ≡ [] }
        ensures { OnOk result (Emits func_meaning resolve.now.types (instruction.ConstZero types.entry) [] results.new self.old self.new) }
    {
        push_zeros(types, results)?;
        Ok(())
    }
}
