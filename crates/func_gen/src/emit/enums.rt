//! Enums become the numbers of their cases, and words cases.

ghost use Rattle.std.specs.Prelude.{◌≡◌, [], Some, length, IfOk, OnOk, true};
ghost use Rattle.rust_tree.specs.declared.expr.CastType.{CastType};
ghost use Rattle.wit_model.specs.Bytes.{Bytes};
ghost use Rattle.wrapper_values.specs.Fields.{root_name};
ghost use Rattle.abi_bindgen.specs.Instructions.{Emits, IsSendable};
ghost use Rattle.abi_bindgen.specs.declared.instruction.Instruction.TheVariants as instruction;
ghost use Rattle.func_gen.specs.EnumForms.{IsEnum, LiftsEnumAt, case_cast, enum_at, lift_path};
ghost use Rattle.func_gen.specs.Operand.{is_operand};
ghost use Rattle.func_gen.specs.Meaning.{func_meaning};
ghost use Rattle.func_gen.specs.Written.{WritesEnum};
ghost use Rattle.func_gen.specs.declared.enum_site.EnumSite.{EnumSite};

use crate::added::{only_expr, only_operand};
use crate::emit::casts::cast_to;
use crate::emit::variants::name_at_root;
use crate::enum_site::EnumSite;
use crate::forms::{call_of, push_name};
use crate::function_bindgen::FunctionBindgen;
use crate::operand::{ExprOperand, copy_expr};
use crate::type_site::TypeSite;
use rust_tree::{CastType, Expr, Path, Repr};
use std::alloc::Global;
use wit_model::{Boxed, List, OutOfMemory, Resolve, Text, TypeId};

/// The type to which a word is cast for the number that holds a case.
fn case_cast(repr: Repr) -> CastType
    requires { (to : CastType) × (case_cast repr ≡ Some to) }
    ensures { case_cast repr ≡ Some result }
{
    match repr {
        Repr::U8 => CastType::U8,
        Repr::U16 => CastType::U16,
        Repr::U32 => CastType::U32,
        _ => unreachable!(),
    }
}

/// The path of the function that gives a case: `P::_lift`.
#[tactic(auto, unfolding(wrapper_run::specs::Run::lift_name))]
fn lift_path(alloc: Global, ty: &Text) -> Result<Path, OutOfMemory>
    ensures { IfOk result (λ p. p ≡ lift_path ty.now) }
{
    let mut names = List::new(alloc);
    push_name(alloc, &mut names, ty.as_str())?;
    push_name(alloc, &mut names, "_lift")?;
    Ok(Path {
        lead: false,
        supers: 0,
        names,
    })
}

/// How an enum of the table is written.
fn enum_site(sites: &[Option<TypeSite>], id: TypeId) -> &EnumSite
    requires { (s : EnumSite) × (enum_at sites.now id.0 ≡ Some s) }
    ensures { enum_at sites.now id.0 ≡ Some result.now }
{
    match &sites[id.0 as usize] {
        Some(TypeSite::Enum(site)) => site,
        _ => unreachable!(),
    }
}

impl FunctionBindgen<'_> {
    /// The call that gives the case of a word's number.
    fn lifted_case(&self, resolve: &Resolve, id: TypeId, e: &Expr) -> Result<Expr, OutOfMemory>
        requires operand { is_operand e.now ≡ true }
        requires site { WritesEnum resolve.now.types self.now.sites id.0 }
        ensures { IfOk result (λ c. LiftsEnumAt resolve.now.types self.now.sites id.0 e.now c) }
    {
        let site = enum_site(self.tables.sites.as_slice(), id);
        let to = case_cast(site.repr);
        let path = lift_path(self.alloc, name_at_root(&site.path))?;
        let number = cast_to(self.alloc, copy_expr(e, self.alloc)?, to)?;
        call_of(self.alloc, path, number)
    }

    pub(crate) fn lower_enum(
        &mut self,
        resolve: &Resolve,
        id: TypeId,
        operands: &List<ExprOperand>,
        results: &mut List<ExprOperand>,
    ) -> Result<(), OutOfMemory>
        requires kind { IsEnum resolve.now.types id.0 }
        requires one { length operands.now ≡ 1 }
        requires empty { results.old ≡ [] }
        ensures { OnOk result (Emits func_meaning resolve.now.types (instruction.EnumLower id) operands.now results.new self.old self.new) }
    {
        let e = only_operand(self.alloc, operands)?;
        let expr = Expr::EnumNumber(Boxed::new(self.alloc, e)?);
        results.push(ExprOperand { expr, kept: false })?;
        Ok(())
    }

    pub(crate) fn lift_enum(
        &mut self,
        resolve: &Resolve,
        id: TypeId,
        operands: &List<ExprOperand>,
        results: &mut List<ExprOperand>,
    ) -> Result<(), OutOfMemory>
        requires sendable { IsSendable func_meaning resolve.now (instruction.EnumLift id) operands.now self.old }
        requires empty { results.old ≡ [] }
        ensures { OnOk result (Emits func_meaning resolve.now.types (instruction.EnumLift id) operands.now results.new self.old self.new) }
    {
        let e = only_expr(operands);
        let case = self.lifted_case(resolve, id, e)?;
        let name = self.add_let("v", case)?;
        let expr = Expr::Local(name);
        results.push(ExprOperand { expr, kept: false })?;
        Ok(())
    }
}
