//! Results become what their cases do.

ghost use Rattle.std.specs.Prelude.{◌≡◌, [], codes, length, IfOk, OnOk};
ghost use Rattle.wit_model.specs.WellFormed.{IsWellFormed};
ghost use Rattle.wit_model.specs.declared.types.TypeDefKind.TheVariants as kind_of;
ghost use Rattle.abi_bindgen.specs.HasList.{IsKindOf};
ghost use Rattle.abi_bindgen.specs.Instructions.{Emits, IsSendable};
ghost use Rattle.abi_bindgen.specs.declared.instruction.Instruction.TheVariants as instruction;
ghost use Rattle.func_gen.specs.CaseForms.{AreResultForms, IsResult, side_form};
ghost use Rattle.func_gen.specs.Meaning.{func_meaning};

use crate::added::only_expr;
use crate::case_form::CaseForm;
use crate::emit::options::core_path;
use crate::emit::parts::push_locals;
use crate::function_bindgen::FunctionBindgen;
use crate::operand::ExprOperand;
use std::alloc::Global;
use wit_model::{List, OutOfMemory, Resolve, TypeDefKind, TypeId, WitType};

/// The form of a side of a result.
fn side_form(alloc: Global, case: &str, payload: Option<WitType>) -> Result<CaseForm, OutOfMemory>
    ensures { IfOk result (λ f. f ≡ side_form case.now payload) }
{
    let path = core_path(alloc, "result", "Result", case)?;
    if payload.is_none() {
        return Ok(CaseForm::LeftOut(path));
    }
    Ok(CaseForm::Full(path))
}

/// The payloads of the result at a place of the table.
fn result_sides(resolve: &Resolve, id: TypeId) -> (Option<WitType>, Option<WitType>)
    requires { IsResult resolve.now.types id.0 }
    ensures { IsKindOf resolve.now.types id.0 (kind_of.Result result.0 result.1) }
{
    match &resolve.types.as_slice()[id.0 as usize].kind {
        TypeDefKind::Result(ok, err) => (*ok, *err),
        _ => unreachable!(),
    }
}

/// The forms of the cases of a result of the table.
pub(crate) fn result_forms(
    alloc: Global,
    resolve: &Resolve,
    id: TypeId,
) -> Result<List<CaseForm>, OutOfMemory>
    requires well { IsWellFormed resolve.now }
    requires kind { IsResult resolve.now.types id.0 }
    ensures { IfOk result (λ forms. AreResultForms resolve.now.types id.0 forms) }
{
    let (ok, err) = result_sides(resolve, id);
    let mut forms = List::new(alloc);
    forms.push(side_form(alloc, "Ok", ok)?)?;
    forms.push(side_form(alloc, "Err", err)?)?;
    Ok(forms)
}

impl FunctionBindgen<'_> {
    pub(crate) fn lower_result(
        &mut self,
        resolve: &Resolve,
        id: TypeId,
        count: u32,
        operands: &List<ExprOperand>,
        results: &mut List<ExprOperand>,
    ) -> Result<(), OutOfMemory>
        requires sendable { IsSendable func_meaning resolve.now (instruction.ResultLower id count) operands.now self.old }
        requires empty { results.old ≡ [] }
        ensures { OnOk result (Emits func_meaning resolve.now.types (instruction.ResultLower id count) operands.now results.new self.old self.new) }
    {
        let e = only_expr(operands);
        let forms = result_forms(self.alloc, resolve, id)?;
        let names = self.lower_cases(forms.as_slice(), e, count)?;
        push_locals(self.alloc, names.as_slice(), results)?;
        Ok(())
    }
}
