//! Values with cases become what their cases do.

ghost use Rattle.std.specs.Prelude.{◌≡◌, [], Some, length, IfOk, OnOk};
ghost use Rattle.wit_model.specs.Bytes.{Bytes};
ghost use Rattle.wit_model.specs.WellFormed.{IsWellFormed};
ghost use Rattle.wit_model.specs.declared.types.TypeDefKind.TheVariants as kind_of;
ghost use Rattle.wrapper_values.specs.Fields.{root_name};
ghost use Rattle.abi_bindgen.specs.HasList.{IsKindOf};
ghost use Rattle.abi_bindgen.specs.Instructions.{Emits, IsSendable};
ghost use Rattle.abi_bindgen.specs.declared.instruction.Instruction.TheVariants as instruction;
ghost use Rattle.func_gen.specs.CaseForms.{AreVariantForms, IsVariant, member_form, member_forms, member_path, variant_at};
ghost use Rattle.func_gen.specs.Meaning.{func_meaning};
ghost use Rattle.func_gen.specs.Written.{CanWrite};
ghost use Rattle.func_gen.specs.declared.variant_site.VariantSite.{VariantSite};

use crate::added::only_expr;
use crate::case_form::CaseForm;
use crate::emit::parts::push_locals;
use crate::function_bindgen::FunctionBindgen;
use crate::operand::ExprOperand;
use crate::type_site::TypeSite;
use crate::variant_site::VariantSite;
use rust_tree::Path;
use std::alloc::Global;
use wit_model::{Case, List, OutOfMemory, Resolve, Text, TypeDefKind, TypeId, WitType};

/// A path of two names.
fn member_path(alloc: Global, ty: &Text, case: &Text) -> Result<Path, OutOfMemory>
    ensures { IfOk result (λ p. p ≡ member_path ty.now case.now) }
{
    let mut names = List::new(alloc);
    names.push(ty.copy(alloc)?)?;
    names.push(case.copy(alloc)?)?;
    Ok(Path {
        lead: false,
        supers: 0,
        names,
    })
}

/// The form of a case of a type of the file.
fn member_form(
    alloc: Global,
    ty: &Text,
    case: &Text,
    payload: Option<WitType>,
) -> Result<CaseForm, OutOfMemory>
    ensures { IfOk result (λ f. f ≡ member_form ty.now case.now payload) }
{
    let path = member_path(alloc, ty, case)?;
    if payload.is_none() {
        return Ok(CaseForm::Bare(path));
    }
    Ok(CaseForm::Full(path))
}

/// Those of all its cases.
fn member_forms(
    alloc: Global,
    ty: &Text,
    names: &[Text],
    members: &[Case],
) -> Result<List<CaseForm>, OutOfMemory>
    requires { length names.now ≡ length members.now }
    ensures { IfOk result (λ forms. forms ≡ member_forms ty.now names.now members.now) }
{
    let mut forms = List::new(alloc);
    for i in 0..names.len() {
        forms.push(member_form(alloc, ty, &names[i], members[i].ty)?)?;
    }
    Ok(forms)
}

/// The one name of a path of the file's root.
pub(crate) fn name_at_root(path: &Path) -> &Text
    requires { (name : Bytes) × (root_name path.now ≡ Some name) }
    ensures { root_name path.now ≡ Some result.now }
{
    match path.names.as_slice() {
        [name] => name,
        _ => unreachable!(),
    }
}

/// How the variant at a place of the table is written.
fn variant_site(sites: &[Option<TypeSite>], id: TypeId) -> &VariantSite
    requires { (s : VariantSite) × (variant_at sites.now id.0 ≡ Some s) }
    ensures { variant_at sites.now id.0 ≡ Some result.now }
{
    match &sites[id.0 as usize] {
        Some(TypeSite::Variant(site)) => site,
        _ => unreachable!(),
    }
}

/// The cases of the variant at a place of the table.
fn variant_cases(resolve: &Resolve, id: TypeId) -> &[Case]
    requires { IsVariant resolve.now.types id.0 }
    ensures { IsKindOf resolve.now.types id.0 (kind_of.Variant result.now) }
{
    match &resolve.types.as_slice()[id.0 as usize].kind {
        TypeDefKind::Variant(members) => members.as_slice(),
        _ => unreachable!(),
    }
}

/// The forms of the cases of a variant of the table.
pub(crate) fn variant_forms(
    alloc: Global,
    resolve: &Resolve,
    sites: &[Option<TypeSite>],
    id: TypeId,
) -> Result<List<CaseForm>, OutOfMemory>
    requires well { IsWellFormed resolve.now }
    requires kind { IsVariant resolve.now.types id.0 }
    requires site { CanWrite resolve.now.types sites.now id.0 }
    ensures { IfOk result (λ forms. AreVariantForms resolve.now.types sites.now id.0 forms) }
{
    let site = variant_site(sites, id);
    let name = name_at_root(&site.lowered);
    let members = variant_cases(resolve, id);
    member_forms(alloc, name, site.cases.as_slice(), members)
}

impl FunctionBindgen<'_> {
    pub(crate) fn lower_variant(
        &mut self,
        resolve: &Resolve,
        id: TypeId,
        count: u32,
        operands: &List<ExprOperand>,
        results: &mut List<ExprOperand>,
    ) -> Result<(), OutOfMemory>
        requires sendable { IsSendable func_meaning resolve.now (instruction.VariantLower id count) operands.now self.old }
        requires empty { results.old ≡ [] }
        ensures { OnOk result (Emits func_meaning resolve.now.types (instruction.VariantLower id count) operands.now results.new self.old self.new) }
    {
        let e = only_expr(operands);
        let forms = variant_forms(self.alloc, resolve, self.tables.sites.as_slice(), id)?;
        let names = self.lower_cases(forms.as_slice(), e, count)?;
        push_locals(self.alloc, names.as_slice(), results)?;
        Ok(())
    }
}
