//! A core import is declared and called.

ghost use Rattle.std.specs.Prelude.{◌≡◌, [], ◌∷◌, true, length, IfOk, OnOk};
ghost use Rattle.wit_model.specs.IndexRange.{function_in_range};
ghost use Rattle.wit_model.specs.WellFormed.{IsWellFormed};
ghost use Rattle.rust_tree.specs.declared.stmt.Stmt.TheVariants as stmt;
ghost use Rattle.abi_bindgen.specs.Calls.{import_params};
ghost use Rattle.abi_bindgen.specs.Instructions.{Emits};
ghost use Rattle.abi_bindgen.specs.declared.instruction.Instruction.TheVariants as instruction;
ghost use Rattle.func_gen.specs.Added.{Appends};
ghost use Rattle.func_gen.specs.CallForms.{AddsCall, AddsStatement, exprs, import_of, local_path};
ghost use Rattle.func_gen.specs.Meaning.{func_meaning};

use crate::core_words::{import_params, import_result};
use crate::function_bindgen::FunctionBindgen;
use crate::operand::{ExprOperand, copy_expr};
use crate::scope::{LocalName, numbered};
use rust_tree::{Expr, ImportDecl, Path, Stmt};
use std::alloc::Global;
use wit_model::{Function, List, OutOfMemory, Resolve, Text, WasmType};

impl FunctionBindgen<'_> {
    pub(crate) fn call_core(
        &mut self,
        resolve: &Resolve,
        func: &Function,
        operands: &List<ExprOperand>,
        results: &mut List<ExprOperand>,
    ) -> Result<(), OutOfMemory>
        requires imports { self.old.import ≡ true }
        requires closed { self.old.opened ≡ [] }
        requires well { IsWellFormed resolve.now }
        requires within { function_in_range resolve.now func.now ≡ true }
        requires words { length operands.now ≡ length (import_params resolve.now.types func.now) }
        requires empty { results.old ≡ [] }
        ensures { OnOk result (Emits func_meaning resolve.now.types (instruction.CallWasm func.entry) operands.now results.new self.old self.new) }
    {
        let params = import_params(self.alloc, resolve, func)?;
        let arguments = expressions(self.alloc, operands.as_slice())?;
        match import_result(resolve, func) {
            None => {
                self.add_statement(func, params, arguments)?;
                Ok(())
            }
            Some(ty) => {
                let name = self.add_call(func, params, ty, arguments)?;
                let expr = Expr::Local(name);
                results.push(ExprOperand { expr, kept: false })?;
                Ok(())
            }
        }
    }

    /// The declaration of a core import and its call. What it answers is a new local, of this name.
    fn add_call(
        &mut self,
        func: &Function,
        params: List<WasmType>,
        ty: WasmType,
        arguments: List<Expr>,
    ) -> Result<Text, OutOfMemory>
        requires closed { self.old.opened ≡ [] }
        ensures { IfOk result (λ name. AddsCall func.now params ty arguments name self.old self.new) }
    {
        let import = LocalName {
            prefix: "wit_import",
            part: None,
        };
        let returned = LocalName {
            prefix: "ret",
            part: None,
        };
        let t = self.scope.declare(self.alloc, &[import, returned])?;
        let name = numbered(self.alloc, import, t)?;
        let path = local_path(self.alloc, &name)?;
        self.push_import(func, name, params, Some(ty))?;
        let answer = numbered(self.alloc, returned, t)?;
        let given = answer.copy(self.alloc)?;
        self.add_outside(Stmt::Let(answer, Expr::Call(path, arguments)))?;
        Ok(given)
    }

    /// The same of one that answers nothing.
    fn add_statement(
        &mut self,
        func: &Function,
        params: List<WasmType>,
        arguments: List<Expr>,
    ) -> Result<(), OutOfMemory>
        requires closed { self.old.opened ≡ [] }
        ensures { OnOk result (AddsStatement func.now params arguments self.old self.new) }
    {
        let import = LocalName {
            prefix: "wit_import",
            part: None,
        };
        let t = self.scope.declare(self.alloc, &[import])?;
        let name = numbered(self.alloc, import, t)?;
        let path = local_path(self.alloc, &name)?;
        self.push_import(func, name, params, None)?;
        self.add_outside(Stmt::Expr(Expr::Call(path, arguments)))?;
        Ok(())
    }

    /// The declaration of a core import of this name.
    fn push_import(
        &mut self,
        func: &Function,
        name: Text,
        params: List<WasmType>,
        answer: Option<WasmType>,
    ) -> Result<(), OutOfMemory>
        ensures adds { OnOk result (Appends self.old self.new (stmt.Import (import_of self.old.home func.now params answer name) ∷ []) []) }
        ensures scope { OnOk result (self.new.scope ≡ self.old.scope) }
    {
        let declared = self.declared(func, name, params, answer)?;
        self.add_effect(Stmt::Import(declared))
    }

    fn declared(
        &self,
        func: &Function,
        name: Text,
        params: List<WasmType>,
        answer: Option<WasmType>,
    ) -> Result<ImportDecl, OutOfMemory>
        ensures { IfOk result (λ d. d ≡ import_of self.now.home func.now params answer name) }
    {
        Ok(ImportDecl {
            module: self.home.copy(self.alloc)?,
            link_name: func.name.wit.copy(self.alloc)?,
            name,
            params,
            result: answer,
        })
    }
}

/// A path of this name alone.
fn local_path(alloc: Global, name: &Text) -> Result<Path, OutOfMemory>
    ensures { IfOk result (λ p. p ≡ local_path name.now) }
{
    let mut names = List::new(alloc);
    names.push(name.copy(alloc)?)?;
    Ok(Path {
        lead: false,
        supers: 0,
        names,
    })
}

/// The expressions that operands are.
pub(crate) fn expressions(
    alloc: Global,
    operands: &[ExprOperand],
) -> Result<List<Expr>, OutOfMemory>
    ensures { IfOk result (λ es. es ≡ exprs operands.now) }
{
    let mut es = List::new(alloc);
    for operand in operands {
        es.push(copy_expr(&operand.expr, alloc)?)?;
    }
    Ok(es)
}
