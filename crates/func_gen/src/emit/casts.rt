//! Core words become words of other core types.

ghost use Rattle.std.specs.Prelude.{◌≡◌, ◌∷◌, ◌++◌, ℕ, [], false, length, map, IfOk, OnOk, true};
ghost use Rattle.std.specs.List.{All, list_all};
ghost use Rattle.rust_tree.specs.declared.expr.Expr.TheVariants as expr;
ghost use Rattle.rust_tree.specs.declared.stmt.Stmt.TheVariants as stmt;
ghost use Rattle.abi_bindgen.specs.Instructions.{Emits, IsSendable};
ghost use Rattle.abi_bindgen.specs.declared.instruction.Instruction.TheVariants as instruction;
ghost use Rattle.func_gen.specs.CastForms.{HasSteps, cast_expr, cast_names, cast_result, cast_stmts, casts_from, core_call, core_path, needs_slot, slot_prefix, slots_from, step_expr, stmts_from};
ghost use Rattle.func_gen.specs.Added.{Appends};
ghost use Rattle.func_gen.specs.CallForms.{FreshAll};
ghost use Rattle.func_gen.specs.Forms.{operand_of};
ghost use Rattle.func_gen.specs.Meaning.{func_meaning};
ghost use Rattle.func_gen.specs.Operand.{is_operand};
ghost use Rattle.func_gen.specs.PartForms.{part_name};
ghost use Rattle.func_gen.specs.Scope.{Takes, names_at};

use crate::added::append;
use crate::emit::parts::operand_exprs;
use crate::forms::{argument_of, push_name};
use crate::function_bindgen::FunctionBindgen;
use crate::operand::{ExprOperand, copy_expr};
use crate::scope::{LocalName, numbered};
use rust_tree::{CastType, Expr, Method, Path, Stmt};
use std::alloc::Global;
use wit_layout::{Bitcast, cast};
use wit_model::{Boxed, List, OutOfMemory, Resolve, Text};
use wrapper_values::CoreFn;

/// A function of a number type.
fn number_path(alloc: Global, ty: &str, name: &str) -> Result<Path, OutOfMemory>
    ensures { IfOk result (λ p. p ≡ record { lead = false; supers = 0; names = ty.now ∷ name.now ∷ [] }) }
{
    let mut names = List::new(alloc);
    push_name(alloc, &mut names, ty)?;
    push_name(alloc, &mut names, name)?;
    Ok(Path {
        lead: false,
        supers: 0,
        names,
    })
}

#[tactic(auto, unfolding(crate::specs::CastForms::new_slot_names))]
fn new_slot_path(alloc: Global) -> Result<Path, OutOfMemory>
    ensures { IfOk result (λ p. p ≡ core_path CoreFn.NewSlot) }
{
    let mut names = List::new(alloc);
    push_name(alloc, &mut names, "core")?;
    push_name(alloc, &mut names, "mem")?;
    push_name(alloc, &mut names, "MaybeUninit")?;
    push_name(alloc, &mut names, "new")?;
    Ok(Path {
        lead: true,
        supers: 0,
        names,
    })
}

#[tactic(auto, unfolding(crate::specs::CastForms::from_names, crate::specs::CastForms::f32_names, crate::specs::CastForms::f64_names))]
fn core_path(alloc: Global, f: CoreFn) -> Result<Path, OutOfMemory>
    ensures { IfOk result (λ p. p ≡ core_path f) }
{
    match f {
        CoreFn::I64From => number_path(alloc, "i64", "from"),
        CoreFn::F32FromBits => number_path(alloc, "f32", "from_bits"),
        CoreFn::F64FromBits => number_path(alloc, "f64", "from_bits"),
        CoreFn::NewSlot => new_slot_path(alloc),
    }
}

/// The call of a function of the core library.
fn core_call(alloc: Global, f: CoreFn, e: Expr) -> Result<Expr, OutOfMemory>
    ensures { IfOk result (λ c. c ≡ core_call f e) }
{
    let arguments = argument_of(alloc, e)?;
    let path = core_path(alloc, f)?;
    Ok(Expr::Call(path, arguments))
}

/// An expression as a value of another type.
pub(crate) fn cast_to(alloc: Global, e: Expr, to: CastType) -> Result<Expr, OutOfMemory>
    ensures { IfOk result (λ c. c ≡ expr.Cast e to) }
{
    Ok(Expr::Cast(Boxed::new(alloc, e)?, to))
}

fn call_on(alloc: Global, e: Expr, method: Method) -> Result<Expr, OutOfMemory>
    ensures { IfOk result (λ c. c ≡ expr.Method e method) }
{
    Ok(Expr::Method(Boxed::new(alloc, e)?, method))
}

/// A float of the low bits of a number.
fn float_of(alloc: Global, e: Expr, bits: CastType, f: CoreFn) -> Result<Expr, OutOfMemory>
    ensures { IfOk result (λ c. c ≡ core_call f (expr.Cast e bits)) }
{
    let number = cast_to(alloc, e, bits)?;
    core_call(alloc, f, number)
}

/// What a method gives, as a number of a type.
fn number_of(alloc: Global, e: Expr, method: Method, to: CastType) -> Result<Expr, OutOfMemory>
    ensures { IfOk result (λ c. c ≡ expr.Cast (expr.Method e method) to) }
{
    let bits = call_on(alloc, e, method)?;
    cast_to(alloc, bits, to)
}

/// An expression behind a cast that is no sequence.
fn step_expr(alloc: Global, step: Bitcast, e: Expr) -> Result<Expr, OutOfMemory>
    ensures { IfOk result (λ c. c ≡ step_expr step e) }
{
    match step {
        Bitcast::I32ToI64 => core_call(alloc, CoreFn::I64From, e),
        Bitcast::F32ToI32 => number_of(alloc, e, Method::ToBits, CastType::I32),
        Bitcast::F64ToI64 => number_of(alloc, e, Method::ToBits, CastType::I64),
        Bitcast::I64ToI32 => cast_to(alloc, e, CastType::I32),
        Bitcast::I32ToF32 => float_of(alloc, e, CastType::U32, CoreFn::F32FromBits),
        Bitcast::I64ToF32 => float_of(alloc, e, CastType::U32, CoreFn::F32FromBits),
        Bitcast::I64ToF64 => float_of(alloc, e, CastType::U64, CoreFn::F64FromBits),
        Bitcast::F32ToI64 => {
            let bits = call_on(alloc, e, Method::ToBits)?;
            core_call(alloc, CoreFn::I64From, bits)
        }
        Bitcast::I64ToP64 => float_of(alloc, e, CastType::U64, CoreFn::NewSlot),
        Bitcast::P64ToI64 => number_of(alloc, e, Method::AssumeInit, CastType::I64),
        Bitcast::P64ToP => call_on(alloc, e, Method::ReadPointer),
        Bitcast::I32ToP => cast_to(alloc, e, CastType::Pointer),
        Bitcast::LToP => cast_to(alloc, e, CastType::Pointer),
        Bitcast::PToI32 => cast_to(alloc, e, CastType::I32),
        Bitcast::LToI32 => cast_to(alloc, e, CastType::I32),
        Bitcast::I32ToL => cast_to(alloc, e, CastType::Usize),
        Bitcast::I64ToL => cast_to(alloc, e, CastType::Usize),
        Bitcast::PToL => cast_to(alloc, e, CastType::Usize),
        Bitcast::LToI64 => cast_to(alloc, e, CastType::I64),
        _ => Ok(e),
    }
}

/// A copy of an expression, behind a cast.
fn cast_copy(alloc: Global, whole: Bitcast, e: &Expr) -> Result<Expr, OutOfMemory>
    requires operand { is_operand e.now ≡ true }
    requires steps { HasSteps whole }
    ensures { IfOk result (λ c. c ≡ cast_expr whole e.now) }
{
    match whole {
        Bitcast::Sequence { from, through, to } => {
            let between = step_expr(alloc, cast(from, through), copy_expr(e, alloc)?)?;
            step_expr(alloc, cast(through, to), between)
        }
        step => step_expr(alloc, step, copy_expr(e, alloc)?),
    }
}

/// Whether a cast puts a pointer into a slot.
fn needs_slot(cast: Bitcast) -> bool
    ensures { result ≡ needs_slot cast }
{
    match cast {
        Bitcast::PToP64 => true,
        _ => false,
    }
}

/// The name of the slot of the cast at a place.
#[tactic(auto, unfolding(crate::specs::CastForms::slot_prefix))]
fn slot_name(alloc: Global, at: usize, t: u32) -> Result<Text, OutOfMemory>
    ensures { IfOk result (λ name. name ≡ part_name slot_prefix t at) }
{
    let part = Some(at);
    let name = LocalName {
        prefix: "slot",
        part,
    };
    numbered(alloc, name, t)
}

/// The name of a cast's slot, where it needs one.
fn push_slot_name<'a>(
    prefix: &'a str,
    cast: Bitcast,
    at: usize,
    names: &mut List<LocalName<'a>>,
) -> Result<(), OutOfMemory>
    requires named { prefix.now ≡ slot_prefix }
    ensures { OnOk result ((t : ℕ) → names_at names.new t ≡ names_at names.old t ++ cast_names (needs_slot cast) (part_name slot_prefix t at)) }
{
    if needs_slot(cast) {
        let part = Some(at);
        names.push(LocalName { prefix, part })?;
    }
    Ok(())
}

/// The names of the slots of casts.
fn slot_names<'a>(
    alloc: Global,
    prefix: &'a str,
    casts: &[Bitcast],
) -> Result<List<LocalName<'a>>, OutOfMemory>
    requires named { prefix.now ≡ slot_prefix }
    ensures { IfOk result (λ names. (t : ℕ) → names_at names t ≡ slots_from 0 casts.now t) }
{
    let mut names = List::new(alloc);
    for i in 0..casts.len() {
        push_slot_name(prefix, casts[i], i, &mut names)?;
    }
    Ok(names)
}

/// The statement that writes what a cast gives into a slot.
fn write_slot(alloc: Global, slot: Text, cast: Bitcast, e: &Expr) -> Result<Stmt, OutOfMemory>
    requires operand { is_operand e.now ≡ true }
    requires steps { HasSteps cast }
    ensures { IfOk result (λ s. s ≡ stmt.WriteSlot slot (cast_expr cast e.now)) }
{
    let e = cast_copy(alloc, cast, e)?;
    Ok(Stmt::WriteSlot(slot, e))
}

/// The statements of a cast that needs a slot.
fn push_slot(
    alloc: Global,
    cast: Bitcast,
    at: usize,
    t: u32,
    e: &Expr,
    stmts: &mut List<Stmt>,
) -> Result<(), OutOfMemory>
    requires operand { is_operand e.now ≡ true }
    requires steps { HasSteps cast }
    ensures { OnOk result (stmts.new ≡ stmts.old ++ cast_stmts (needs_slot cast) (part_name slot_prefix t at) (cast_expr cast e.now)) }
{
    if needs_slot(cast) {
        let slot = slot_name(alloc, at, t)?;
        stmts.push(Stmt::LetSlot(slot))?;
        let slot = slot_name(alloc, at, t)?;
        stmts.push(write_slot(alloc, slot, cast, e)?)?;
    }
    Ok(())
}

/// The statements of casts that need slots.
fn push_slots(
    alloc: Global,
    t: u32,
    casts: &[Bitcast],
    es: &[Expr],
    stmts: &mut List<Stmt>,
) -> Result<(), OutOfMemory>
    requires operands { list_all is_operand es.now ≡ true }
    requires many { length es.now ≡ length casts.now }
    requires steps { All HasSteps casts.now }
    ensures { OnOk result (stmts.new ≡ stmts.old ++ stmts_from 0 casts.now es.now t) }
{
    for i in 0..casts.len() {
        push_slot(alloc, casts[i], i, t, &es[i], stmts)?;
    }
    Ok(())
}

/// What a cast gives: its slot, or the expression behind it.
fn cast_result(
    alloc: Global,
    cast: Bitcast,
    at: usize,
    t: u32,
    e: &Expr,
) -> Result<Expr, OutOfMemory>
    requires operand { is_operand e.now ≡ true }
    requires steps { HasSteps cast }
    ensures same { IfOk result (λ c. c ≡ cast_result (needs_slot cast) (part_name slot_prefix t at) (cast_expr cast e.now)) }
    ensures operand { IfOk result (λ c. is_operand c ≡ true) }
{
    if needs_slot(cast) {
        return Ok(Expr::Local(slot_name(alloc, at, t)?));
    }
    let copy = cast_copy(alloc, cast, e)?;
    Ok(copy)
}

/// What casts give, in order.
fn push_casts(
    alloc: Global,
    t: u32,
    casts: &[Bitcast],
    es: &[Expr],
    results: &mut List<ExprOperand>,
) -> Result<(), OutOfMemory>
    requires operands { list_all is_operand es.now ≡ true }
    requires many { length es.now ≡ length casts.now }
    requires steps { All HasSteps casts.now }
    ensures { OnOk result (results.new ≡ results.old ++ map operand_of (casts_from 0 casts.now es.now t)) }
{
    for i in 0..casts.len() {
        let expr = cast_result(alloc, casts[i], i, t, &es[i])?;
        results.push(ExprOperand { expr, kept: false })?;
    }
    Ok(())
}

impl FunctionBindgen<'_> {
    /// The number of the slots of casts, into which pointers are put.
    #[tactic(auto, unfolding(crate::specs::CastForms::slot_prefix))]
    fn add_slots(&mut self, casts: &[Bitcast], es: &[Expr]) -> Result<u32, OutOfMemory>
        requires operands { list_all is_operand es.now ≡ true }
        requires many { length es.now ≡ length casts.now }
        requires steps { All HasSteps casts.now }
        ensures adds { IfOk result (λ t. Appends self.old self.new (stmts_from 0 casts.now es.now t) []) }
        ensures fresh { IfOk result (λ t. FreshAll self.old self.new (slots_from 0 casts.now t)) }
        ensures takes { IfOk result (λ t. Takes self.old.scope (λ k. slots_from 0 casts.now k) t self.new.scope) }
    {
        let names = slot_names(self.alloc, "slot", casts)?;
        let t = self.scope.declare(self.alloc, names.as_slice())?;
        let mut stmts = List::new(self.alloc);
        push_slots(self.alloc, t, casts, es, &mut stmts)?;
        append(self.alloc, &mut self.code.stmts, stmts)?;
        Ok(t)
    }

    pub(crate) fn cast_words(
        &mut self,
        resolve: &Resolve,
        casts: &[Bitcast],
        operands: &List<ExprOperand>,
        results: &mut List<ExprOperand>,
    ) -> Result<(), OutOfMemory>
        requires sendable { IsSendable func_meaning resolve.now (instruction.Bitcasts casts) operands.now self.old }
        requires empty { results.old ≡ [] }
        ensures { OnOk result (Emits func_meaning resolve.now.types (instruction.Bitcasts casts.entry) operands.now results.new self.old self.new) }
    {
        let es = operand_exprs(self.alloc, operands.as_slice())?;
        let t = self.add_slots(casts, es.as_slice())?;
        push_casts(self.alloc, t, casts, es.as_slice(), results)?;
        Ok(())
    }
}
