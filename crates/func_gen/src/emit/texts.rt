//! Texts become an address and a length, and texts are taken over by these.

ghost use Rattle.std.specs.Prelude.{◌≡◌, [], ◌∷◌, true, false, length, IfOk, OnOk};
ghost use Rattle.std.specs.Option.{option_copied};
ghost use Rattle.rust_tree.specs.declared.expr.Expr.TheVariants as expr;
ghost use Rattle.rust_tree.specs.declared.runtime_item.RuntimeItem.TheVariants.{StringLift};
ghost use Rattle.rust_tree.specs.declared.stmt.Stmt.TheVariants as stmt;
ghost use Rattle.wrapper_run.specs.Inward.{is_inward_expr};
ghost use Rattle.abi_bindgen.specs.Instructions.{Emits};
ghost use Rattle.abi_bindgen.specs.declared.instruction.Instruction.TheVariants as instruction;
ghost use Rattle.func_gen.specs.Added.{Appends};
ghost use Rattle.func_gen.specs.CallForms.{FreshAll};
ghost use Rattle.func_gen.specs.CodeOf.{local_of};
ghost use Rattle.func_gen.specs.Forms.{runtime_call};
ghost use Rattle.func_gen.specs.Operand.{is_operand};
ghost use Rattle.func_gen.specs.Meaning.{func_meaning};
ghost use Rattle.func_gen.specs.PartForms.{exprs_of};
ghost use Rattle.func_gen.specs.Scope.{Takes, with_number};
ghost use Rattle.func_gen.specs.TextForms.{buffer_stmts, buffer_words, bytes_name, forget_path, forgotten, len_name, ptr_name, taken_stmts, text_name, vec_name};

use crate::added::{only_expr, only_operand};
use crate::emit::memory::both_exprs;
use crate::forms::{call_of, push_name, runtime_call};
use crate::function_bindgen::FunctionBindgen;
use crate::operand::{ExprOperand, copy_expr, push_expr};
use crate::scope::{LocalName, numbered};
use rust_tree::{Expr, Path, RuntimeItem, Stmt};
use std::alloc::Global;
use wit_model::{Boxed, List, OutOfMemory, Resolve, Text};

/// The name of a local: what stands before its number, and the number.
fn local_name(alloc: Global, prefix: &str, t: u32) -> Result<Text, OutOfMemory>
    ensures { IfOk result (λ text. text ≡ with_number prefix.now t) }
{
    numbered(alloc, LocalName { prefix, part: None }, t)
}

#[tactic(auto, unfolding(crate::specs::TextForms::forget_names))]
fn forget_path(alloc: Global) -> Result<Path, OutOfMemory>
    ensures { IfOk result (λ p. p ≡ forget_path) }
{
    let mut names = List::new(alloc);
    push_name(alloc, &mut names, "core")?;
    push_name(alloc, &mut names, "mem")?;
    push_name(alloc, &mut names, "forget")?;
    Ok(Path {
        lead: true,
        supers: 0,
        names,
    })
}

/// The call by which the value of a local is forgotten.
fn forgotten(alloc: Global, name: Text) -> Result<Expr, OutOfMemory>
    ensures { IfOk result (λ c. c ≡ forgotten name) }
{
    let path = forget_path(alloc)?;
    call_of(alloc, path, Expr::Local(name))
}

/// The name of a local by itself.
fn local_of(e: &Expr) -> Option<&Text>
    ensures { option_copied result ≡ local_of e.now }
{
    match e {
        Expr::Local(name) => Some(name),
        _ => None,
    }
}

/// The address and the length of a buffer.
fn push_words(alloc: Global, t: u32, results: &mut List<ExprOperand>) -> Result<(), OutOfMemory>
    requires empty { results.old ≡ [] }
    ensures { OnOk result (results.new ≡ buffer_words t) }
{
    let address = local_name(alloc, "ptr", t)?;
    push_expr(results, Expr::CastMut(address))?;
    let length = local_name(alloc, "len", t)?;
    push_expr(results, Expr::Local(length))
}

impl FunctionBindgen<'_> {
    /// The number of three locals.
    fn declare_three(&mut self, one: &str, two: &str, three: &str) -> Result<u32, OutOfMemory>
        ensures adds { IfOk result (λ t. Appends self.old self.new [] []) }
        ensures takes { IfOk result (λ t. Takes self.old.scope (λ k. with_number one.now k ∷ with_number two.now k ∷ with_number three.now k ∷ []) t self.new.scope) }
        ensures fresh { IfOk result (λ t. FreshAll self.old self.new (with_number one.now t ∷ with_number two.now t ∷ with_number three.now t ∷ [])) }
    {
        let one = LocalName {
            prefix: one,
            part: None,
        };
        let two = LocalName {
            prefix: two,
            part: None,
        };
        let three = LocalName {
            prefix: three,
            part: None,
        };
        self.scope.declare(self.alloc, &[one, two, three])
    }

    fn push_ptr(&mut self, t: u32) -> Result<(), OutOfMemory>
        ensures adds { OnOk result (Appends self.old self.new (stmt.Let (ptr_name t) (expr.AsPtr (vec_name t)) ∷ []) []) }
        ensures scope { OnOk result (self.new.scope ≡ self.old.scope) }
    {
        let name = local_name(self.alloc, "ptr", t)?;
        let vec = local_name(self.alloc, "vec", t)?;
        self.add_effect(Stmt::Let(name, Expr::AsPtr(vec)))
    }

    fn push_len(&mut self, t: u32) -> Result<(), OutOfMemory>
        ensures adds { OnOk result (Appends self.old self.new (stmt.Let (len_name t) (expr.Len (vec_name t)) ∷ []) []) }
        ensures scope { OnOk result (self.new.scope ≡ self.old.scope) }
    {
        let name = local_name(self.alloc, "len", t)?;
        let vec = local_name(self.alloc, "vec", t)?;
        self.add_effect(Stmt::Let(name, Expr::Len(vec)))
    }

    /// The locals of a buffer with this number and name, whose value an expression gives: itself, its address and its length.
    fn push_buffer(&mut self, t: u32, vec: Text, e: Expr) -> Result<(), OutOfMemory>
        requires name { vec ≡ vec_name t }
        requires inward { is_inward_expr e ≡ true }
        ensures adds { OnOk result (Appends self.old self.new (buffer_stmts t e) []) }
        ensures scope { OnOk result (self.new.scope ≡ self.old.scope) }
    {
        self.add_effect(Stmt::Let(vec, e))?;
        self.push_ptr(t)?;
        self.push_len(t)?;
        Ok(())
    }

    fn push_bytes(&mut self, t: u32, address: Expr) -> Result<(), OutOfMemory>
        requires inward { is_inward_expr address ≡ true }
        ensures adds { OnOk result (Appends self.old self.new (stmt.Let (bytes_name t) (expr.FromRawParts address (len_name t)) ∷ []) []) }
        ensures scope { OnOk result (self.new.scope ≡ self.old.scope) }
    {
        let address = Boxed::new(self.alloc, address)?;
        let name = local_name(self.alloc, "bytes", t)?;
        let len = local_name(self.alloc, "len", t)?;
        self.add_effect(Stmt::Let(name, Expr::FromRawParts(address, len)))
    }

    fn push_text(&mut self, t: u32) -> Result<(), OutOfMemory>
        ensures adds { OnOk result (Appends self.old self.new (stmt.Let (text_name t) (runtime_call StringLift (expr.Local (bytes_name t))) ∷ []) []) }
        ensures scope { OnOk result (self.new.scope ≡ self.old.scope) }
    {
        let name = local_name(self.alloc, "text", t)?;
        let bytes = Expr::Local(local_name(self.alloc, "bytes", t)?);
        let lifted = runtime_call(self.alloc, RuntimeItem::StringLift, bytes)?;
        self.add_effect(Stmt::Let(name, lifted))
    }

    /// The locals of a text that is taken over, with this number: its length, of this name, its bytes, and itself.
    fn push_taken(&mut self, t: u32, len: Text, address: &Expr, n: &Expr) -> Result<(), OutOfMemory>
        requires first { is_operand address.now ≡ true }
        requires second { is_operand n.now ≡ true }
        requires name { len ≡ len_name t }
        ensures adds { OnOk result (Appends self.old self.new (taken_stmts t address.now n.now) []) }
        ensures scope { OnOk result (self.new.scope ≡ self.old.scope) }
    {
        let n = copy_expr(n, self.alloc)?;
        self.add_effect(Stmt::Let(len, n))?;
        let address = copy_expr(address, self.alloc)?;
        self.push_bytes(t, address)?;
        self.push_text(t)?;
        Ok(())
    }
}

impl FunctionBindgen<'_> {
    pub(crate) fn lend_text(
        &mut self,
        resolve: &Resolve,
        operands: &List<ExprOperand>,
        results: &mut List<ExprOperand>,
    ) -> Result<(), OutOfMemory>
        requires one { length operands.now ≡ 1 }
        requires empty { results.old ≡ [] }
        ensures { OnOk result (Emits func_meaning resolve.now.types (instruction.StringLower false) operands.now results.new self.old self.new) }
    {
        let t = self.declare_three("vec", "ptr", "len")?;
        let vec = local_name(self.alloc, "vec", t)?;
        let e = only_operand(self.alloc, operands)?;
        self.push_buffer(t, vec, e)?;
        push_words(self.alloc, t, results)?;
        Ok(())
    }

    /// The text in a local is given away.
    fn hand_text(
        &mut self,
        resolve: &Resolve,
        name: &Text,
        operands: &List<ExprOperand>,
        results: &mut List<ExprOperand>,
    ) -> Result<(), OutOfMemory>
        requires local { exprs_of operands.now ≡ expr.Local name.now ∷ [] }
        requires empty { results.old ≡ [] }
        ensures { OnOk result (Emits func_meaning resolve.now.types (instruction.StringLower true) operands.now results.new self.old self.new) }
    {
        let t = self.declare_three("vec", "ptr", "len")?;
        let vec = local_name(self.alloc, "vec", t)?;
        let name = name.copy(self.alloc)?;
        self.push_buffer(t, vec, Expr::IntoBoxedBytes(name))?;
        let vec = local_name(self.alloc, "vec", t)?;
        let call = forgotten(self.alloc, vec)?;
        self.add_effect(Stmt::Expr(call))?;
        push_words(self.alloc, t, results)?;
        Ok(())
    }

    /// A text is given away. Any operand but a local by itself denotes none that may be: it is lent.
    pub(crate) fn give_text(
        &mut self,
        resolve: &Resolve,
        operands: &List<ExprOperand>,
        results: &mut List<ExprOperand>,
    ) -> Result<(), OutOfMemory>
        requires one { length operands.now ≡ 1 }
        requires empty { results.old ≡ [] }
        ensures { OnOk result (Emits func_meaning resolve.now.types (instruction.StringLower true) operands.now results.new self.old self.new) }
    {
        let e = only_expr(operands);
        match local_of(e) {
            Some(name) => self.hand_text(resolve, name, operands, results),
            None => self.lend_text(resolve, operands, results),
        }
    }

    pub(crate) fn lift_text(
        &mut self,
        resolve: &Resolve,
        operands: &List<ExprOperand>,
        results: &mut List<ExprOperand>,
    ) -> Result<(), OutOfMemory>
        requires two { length operands.now ≡ 2 }
        requires empty { results.old ≡ [] }
        ensures { OnOk result (Emits func_meaning resolve.now.types instruction.StringLift operands.now results.new self.old self.new) }
    {
        self.ask(RuntimeItem::VecType)?;
        self.ask(RuntimeItem::StringLift)?;
        let t = self.declare_three("len", "bytes", "text")?;
        let len = local_name(self.alloc, "len", t)?;
        let (address, n) = both_exprs(operands);
        self.push_taken(t, len, address, n)?;
        let name = local_name(self.alloc, "text", t)?;
        let expr = Expr::Local(name);
        results.push(ExprOperand { expr, kept: false })?;
        Ok(())
    }
}
