//! Options become what their cases do.

ghost use Rattle.std.specs.Prelude.{◌≡◌, [], ◌∷◌, true, codes, length, IfOk, OnOk};
ghost use Rattle.wit_model.specs.WellFormed.{IsWellFormed};
ghost use Rattle.abi_bindgen.specs.Instructions.{Emits, IsSendable};
ghost use Rattle.abi_bindgen.specs.declared.instruction.Instruction.TheVariants as instruction;
ghost use Rattle.func_gen.specs.CaseForms.{AreOptionForms, IsOption, core_path};
ghost use Rattle.func_gen.specs.Meaning.{func_meaning};

use crate::added::only_expr;
use crate::case_form::CaseForm;
use crate::emit::parts::push_locals;
use crate::forms::push_name;
use crate::function_bindgen::FunctionBindgen;
use crate::operand::ExprOperand;
use rust_tree::Path;
use std::alloc::Global;
use wit_model::{List, OutOfMemory, Resolve, Text, TypeId};

/// The path of a case of an option or a result.
pub(crate) fn core_path(
    alloc: Global,
    second: &str,
    third: &str,
    case: &str,
) -> Result<Path, OutOfMemory>
    ensures { IfOk result (λ p. p ≡ core_path second.now third.now case.now) }
{
    let mut names = List::new(alloc);
    push_name(alloc, &mut names, "core")?;
    push_name(alloc, &mut names, second)?;
    push_name(alloc, &mut names, third)?;
    push_name(alloc, &mut names, case)?;
    Ok(Path {
        lead: true,
        supers: 0,
        names,
    })
}

/// The forms of the cases of an option of the table.
pub(crate) fn option_forms(
    alloc: Global,
    resolve: &Resolve,
    id: TypeId,
) -> Result<List<CaseForm>, OutOfMemory>
    requires well { IsWellFormed resolve.now }
    requires kind { IsOption resolve.now.types id.0 }
    ensures { IfOk result (λ forms. AreOptionForms resolve.now.types id.0 forms) }
{
    let mut forms = List::new(alloc);
    forms.push(CaseForm::Bare(core_path(alloc, "option", "Option", "None")?))?;
    forms.push(CaseForm::Full(core_path(alloc, "option", "Option", "Some")?))?;
    Ok(forms)
}

impl FunctionBindgen<'_> {
    pub(crate) fn lower_option(
        &mut self,
        resolve: &Resolve,
        id: TypeId,
        count: u32,
        operands: &List<ExprOperand>,
        results: &mut List<ExprOperand>,
    ) -> Result<(), OutOfMemory>
        requires sendable { IsSendable func_meaning resolve.now (instruction.OptionLower id count) operands.now self.old }
        requires empty { results.old ≡ [] }
        ensures { OnOk result (Emits func_meaning resolve.now.types (instruction.OptionLower id count) operands.now results.new self.old self.new) }
    {
        let e = only_expr(operands);
        let forms = option_forms(self.alloc, resolve, id)?;
        let names = self.lower_cases(forms.as_slice(), e, count)?;
        push_locals(self.alloc, names.as_slice(), results)?;
        Ok(())
    }
}
