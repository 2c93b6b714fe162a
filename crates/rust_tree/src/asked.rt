//! Which items of `_rt` the items of a file name, in the order of the text.

ghost use Rattle.std.specs.Prelude.{◌≡◌, ◌++◌, IfOk, OnOk};
ghost use Rattle.std.specs.List.{flat_map};
ghost use Rattle.rust_tree.specs.Asked.{asked_by_arm, asked_by_arm_pattern, asked_by_block, asked_by_call, asked_by_definition, asked_by_export, asked_by_expr, asked_by_fn, asked_by_item, asked_by_method, asked_by_path, asked_by_pattern, asked_by_payload, asked_by_signature, asked_by_stmt, asked_by_tail, asked_by_type, asked_in, asked_of};
ghost use Rattle.rust_tree.specs.Runtime.{item_of_name};

use crate::export::{CallBlock, ExportFn};
use crate::expr::Expr;
use crate::item::{FnItem, FnParam, Item};
use crate::path::Path;
use crate::pattern::{ArmPattern, Pattern};
use crate::runtime_item::RuntimeItem;
use crate::stmt::{Arm, Block, Stmt};
use crate::trait_item::TraitFn;
use crate::type_expr::TypeExpr;
use crate::type_item::{StructField, TypeItem};
use crate::variant_item::VariantCase;
use std::alloc::Global;
use wit_model::{List, OutOfMemory, Text};

fn ask_by_name(asked: &mut List<RuntimeItem>, name: &Text) -> Result<(), OutOfMemory>
    ensures { OnOk result (asked.new ≡ asked.old ++ asked_of (item_of_name name.now)) }
{
    match RuntimeItem::of_name(name.as_str()) {
        None => Ok(()),
        Some(item) => asked.push(item),
    }
}

#[tactic(auto, unfolding(crate::specs::Asked::asked_by_path))]
fn ask_by_path(asked: &mut List<RuntimeItem>, path: &Path) -> Result<(), OutOfMemory>
    ensures { OnOk result (asked.new ≡ asked.old ++ asked_by_path path.now) }
{
    if path.lead || path.supers != 0 {
        return Ok(());
    }
    match path.names.as_slice() {
        [first, name, ..] if first.as_str() == "_rt" => ask_by_name(asked, name),
        _ => Ok(()),
    }
}

fn ask_by_paths(asked: &mut List<RuntimeItem>, paths: &[Path]) -> Result<(), OutOfMemory>
    ensures { OnOk result (asked.new ≡ asked.old ++ flat_map asked_by_path paths.now) }
{
    for path in paths {
        ask_by_path(asked, path)?;
    }
    Ok(())
}

#[cycle(asked_type)]
fn ask_by_type(asked: &mut List<RuntimeItem>, ty: &TypeExpr) -> Result<(), OutOfMemory>
    ensures { OnOk result (asked.new ≡ asked.old ++ asked_by_type ty.now) }
{
    match ty {
        TypeExpr::Primitive(_) | TypeExpr::Unit | TypeExpr::Str => Ok(()),
        TypeExpr::String => asked.push(RuntimeItem::StringType),
        TypeExpr::Ref(ty) | TypeExpr::Optional(ty) => ask_by_type(asked, ty.get()),
        TypeExpr::Array(ty, _) => ask_by_type(asked, ty.get()),
        TypeExpr::Path(path) => ask_by_path(asked, path),
        TypeExpr::Tuple(parts) => ask_by_types(asked, parts.as_slice()),
        TypeExpr::Result(ok, err) => {
            ask_by_type(asked, ok.get())?;
            ask_by_type(asked, err.get())
        }
    }
}

#[cycle(asked_type)]
fn ask_by_types(asked: &mut List<RuntimeItem>, types: &[TypeExpr]) -> Result<(), OutOfMemory>
    ensures { OnOk result (asked.new ≡ asked.old ++ flat_map asked_by_type types.now) }
{
    for ty in types {
        ask_by_type(asked, ty)?;
    }
    Ok(())
}

#[cycle(asked_expr)]
fn ask_by_expr(asked: &mut List<RuntimeItem>, e: &Expr) -> Result<(), OutOfMemory>
    ensures { OnOk result (asked.new ≡ asked.old ++ asked_by_expr e.now) }
{
    match e {
        Expr::Local(_) | Expr::Ref(_) | Expr::AsPtr(_) | Expr::Len(_) => Ok(()),
        Expr::CastMut(_) | Expr::ReturnPointer(_) | Expr::IntoBoxedBytes(_) => Ok(()),
        Expr::StaticPointer | Expr::Size(_) | Expr::FlagsBits(_, _) => Ok(()),
        Expr::Cast(e, _) | Expr::I32FromBool(e) | Expr::EnumNumber(e) => {
            ask_by_expr(asked, e.get())
        }
        Expr::Call(path, arguments) => {
            ask_by_path(asked, path)?;
            ask_by_exprs(asked, arguments.as_slice())
        }
        Expr::Load(address, _, _) | Expr::LoadSmall(address, _, _) => {
            ask_by_expr(asked, address.get())
        }
        Expr::FromRawParts(pointer, _) => {
            asked.push(RuntimeItem::VecType)?;
            ask_by_expr(asked, pointer.get())
        }
        Expr::Record(path, fields) => {
            ask_by_path(asked, path)?;
            ask_by_fields(asked, fields.as_slice())
        }
        Expr::Tuple(parts) => ask_by_exprs(asked, parts.as_slice()),
        Expr::Array(parts) => ask_by_exprs(asked, parts.as_slice()),
        Expr::FlagsOfWords(path, _, words) => {
            ask_by_path(asked, path)?;
            ask_by_words(asked, path, words.as_slice())
        }
        Expr::I32Const(_) | Expr::Zero(_) | Expr::Unit => Ok(()),
        Expr::Case(path) => ask_by_path(asked, path),
        Expr::Method(e, _) => ask_by_expr(asked, e.get()),
    }
}

#[cycle(asked_expr)]
fn ask_by_exprs(asked: &mut List<RuntimeItem>, es: &[Expr]) -> Result<(), OutOfMemory>
    ensures { OnOk result (asked.new ≡ asked.old ++ flat_map asked_by_expr es.now) }
{
    for e in es {
        ask_by_expr(asked, e)?;
    }
    Ok(())
}

#[cycle(asked_expr)]
fn ask_by_fields(asked: &mut List<RuntimeItem>, fields: &[(Text, Expr)]) -> Result<(), OutOfMemory>
    ensures { OnOk result (asked.new ≡ asked.old ++ flat_map (λ f. asked_by_expr f.1) fields.now) }
{
    for field in fields {
        ask_by_expr(asked, &field.1)?;
    }
    Ok(())
}

/// What the words of flags name: each stands behind the path of the flags' type.
#[cycle(asked_expr)]
fn ask_by_words(
    asked: &mut List<RuntimeItem>,
    path: &Path,
    words: &[(u32, Expr)],
) -> Result<(), OutOfMemory>
    ensures { OnOk result (asked.new ≡ asked.old ++ flat_map (λ w. asked_by_path path.now ++ asked_by_expr w.1) words.now) }
{
    for word in words {
        ask_by_path(asked, path)?;
        ask_by_expr(asked, &word.1)?;
    }
    Ok(())
}

/// What an address and what is stored there name.
fn ask_by_both(asked: &mut List<RuntimeItem>, address: &Expr, e: &Expr) -> Result<(), OutOfMemory>
    ensures { OnOk result (asked.new ≡ asked.old ++ (asked_by_expr address.now ++ asked_by_expr e.now)) }
{
    ask_by_expr(asked, address)?;
    ask_by_expr(asked, e)
}

fn ask_by_pattern(asked: &mut List<RuntimeItem>, pattern: &Pattern) -> Result<(), OutOfMemory>
    ensures { OnOk result (asked.new ≡ asked.old ++ asked_by_pattern pattern.now) }
{
    match pattern {
        Pattern::Record(path, _) => ask_by_path(asked, path),
        Pattern::Tuple(_) | Pattern::Array(_) => Ok(()),
    }
}

fn ask_by_arm_pattern(
    asked: &mut List<RuntimeItem>,
    pattern: &ArmPattern,
) -> Result<(), OutOfMemory>
    ensures { OnOk result (asked.new ≡ asked.old ++ asked_by_arm_pattern pattern.now) }
{
    match pattern {
        ArmPattern::Case(path) | ArmPattern::LeftOut(path) => ask_by_path(asked, path),
        ArmPattern::Payload(path, _) => ask_by_path(asked, path),
        ArmPattern::Number(_) | ArmPattern::Name(_) | ArmPattern::AnyOther => Ok(()),
    }
}

#[cycle(asked_stmt)]
fn ask_by_stmt(asked: &mut List<RuntimeItem>, stmt: &Stmt) -> Result<(), OutOfMemory>
    ensures { OnOk result (asked.new ≡ asked.old ++ asked_by_stmt stmt.now) }
{
    match stmt {
        Stmt::Import(_) | Stmt::Area(_) | Stmt::AssertLast(_, _) | Stmt::LetSlot(_) => Ok(()),
        Stmt::Let(_, e) | Stmt::Expr(e) | Stmt::WriteSlot(_, e) => ask_by_expr(asked, e),
        Stmt::Store(address, _, _, e) => ask_by_both(asked, address, e),
        Stmt::StoreSmall(address, _, _, e) => ask_by_both(asked, address, e),
        Stmt::LetParts(pattern, e) => {
            ask_by_pattern(asked, pattern)?;
            ask_by_expr(asked, e)
        }
        Stmt::Match(_, e, arms) => {
            ask_by_expr(asked, e)?;
            ask_by_arms(asked, arms.as_slice())
        }
    }
}

#[cycle(asked_stmt)]
fn ask_by_arms(asked: &mut List<RuntimeItem>, arms: &[Arm]) -> Result<(), OutOfMemory>
    ensures { OnOk result (asked.new ≡ asked.old ++ flat_map asked_by_arm arms.now) }
{
    for arm in arms {
        ask_by_arm(asked, arm)?;
    }
    Ok(())
}

#[cycle(asked_stmt)]
fn ask_by_arm(asked: &mut List<RuntimeItem>, arm: &Arm) -> Result<(), OutOfMemory>
    ensures { OnOk result (asked.new ≡ asked.old ++ asked_by_arm arm.now) }
{
    ask_by_arm_pattern(asked, &arm.pattern)?;
    ask_by_block(asked, &arm.body)
}

#[cycle(asked_stmt)]
fn ask_by_block(asked: &mut List<RuntimeItem>, block: &Block) -> Result<(), OutOfMemory>
    ensures { OnOk result (asked.new ≡ asked.old ++ asked_by_block block.now) }
{
    ask_by_stmts(asked, block.stmts.as_slice())?;
    ask_by_tail(asked, &block.tail)
}

#[cycle(asked_stmt)]
fn ask_by_stmts(asked: &mut List<RuntimeItem>, stmts: &[Stmt]) -> Result<(), OutOfMemory>
    ensures { OnOk result (asked.new ≡ asked.old ++ flat_map asked_by_stmt stmts.now) }
{
    for stmt in stmts {
        ask_by_stmt(asked, stmt)?;
    }
    Ok(())
}

fn ask_by_tail(asked: &mut List<RuntimeItem>, tail: &Option<Expr>) -> Result<(), OutOfMemory>
    ensures { OnOk result (asked.new ≡ asked.old ++ asked_by_tail tail.now) }
{
    match tail {
        None => Ok(()),
        Some(e) => ask_by_expr(asked, e),
    }
}

fn ask_by_params(asked: &mut List<RuntimeItem>, params: &[FnParam]) -> Result<(), OutOfMemory>
    ensures { OnOk result (asked.new ≡ asked.old ++ flat_map (λ p. asked_by_type p.ty) params.now) }
{
    for param in params {
        ask_by_type(asked, &param.ty)?;
    }
    Ok(())
}

/// Puts the items of `_rt` that a signature names behind those that were asked for: by its parameters, and then by its result, each as
/// often as it is named. Where memory is refused some of them may stand there.
pub fn ask_by_signature(
    asked: &mut List<RuntimeItem>,
    params: &[FnParam],
    ty: &TypeExpr,
) -> Result<(), OutOfMemory>
    ensures { OnOk result (asked.new ≡ asked.old ++ asked_by_signature params.now ty.now) }
{
    ask_by_params(asked, params)?;
    ask_by_type(asked, ty)
}

fn ask_by_fn(asked: &mut List<RuntimeItem>, f: &FnItem) -> Result<(), OutOfMemory>
    ensures { OnOk result (asked.new ≡ asked.old ++ asked_by_fn f.now) }
{
    ask_by_signature(asked, f.params.as_slice(), &f.result)?;
    ask_by_block(asked, &f.body)
}

fn ask_by_call(asked: &mut List<RuntimeItem>, call: &CallBlock) -> Result<(), OutOfMemory>
    ensures { OnOk result (asked.new ≡ asked.old ++ asked_by_call call.now) }
{
    ask_by_stmts(asked, call.stmts.as_slice())?;
    ask_by_exprs(asked, call.arguments.as_slice())
}

fn ask_by_export(asked: &mut List<RuntimeItem>, f: &ExportFn) -> Result<(), OutOfMemory>
    ensures { OnOk result (asked.new ≡ asked.old ++ asked_by_export f.now) }
{
    ask_by_call(asked, &f.call)?;
    ask_by_block(asked, &f.rest)
}

fn ask_by_method(asked: &mut List<RuntimeItem>, f: &TraitFn) -> Result<(), OutOfMemory>
    ensures { OnOk result (asked.new ≡ asked.old ++ asked_by_method f.now) }
{
    ask_by_signature(asked, f.params.as_slice(), &f.result)
}

fn ask_by_methods(asked: &mut List<RuntimeItem>, functions: &[TraitFn]) -> Result<(), OutOfMemory>
    ensures { OnOk result (asked.new ≡ asked.old ++ flat_map asked_by_method functions.now) }
{
    for function in functions {
        ask_by_method(asked, function)?;
    }
    Ok(())
}

fn ask_by_struct_fields(
    asked: &mut List<RuntimeItem>,
    fields: &[StructField],
) -> Result<(), OutOfMemory>
    ensures { OnOk result (asked.new ≡ asked.old ++ flat_map (λ f. asked_by_type f.ty) fields.now) }
{
    for field in fields {
        ask_by_type(asked, &field.ty)?;
    }
    Ok(())
}

fn ask_by_payload(asked: &mut List<RuntimeItem>, ty: &Option<TypeExpr>) -> Result<(), OutOfMemory>
    ensures { OnOk result (asked.new ≡ asked.old ++ asked_by_payload ty.now) }
{
    match ty {
        None => Ok(()),
        Some(ty) => ask_by_type(asked, ty),
    }
}

fn ask_by_variant_cases(
    asked: &mut List<RuntimeItem>,
    cases: &[VariantCase],
) -> Result<(), OutOfMemory>
    ensures { OnOk result (asked.new ≡ asked.old ++ flat_map (λ c. asked_by_payload c.ty) cases.now) }
{
    for case in cases {
        ask_by_payload(asked, &case.ty)?;
    }
    Ok(())
}

fn ask_by_definition(asked: &mut List<RuntimeItem>, item: &TypeItem) -> Result<(), OutOfMemory>
    ensures { OnOk result (asked.new ≡ asked.old ++ asked_by_definition item.now) }
{
    match item {
        TypeItem::Struct(item) => {
            ask_by_paths(asked, item.derives.as_slice())?;
            ask_by_struct_fields(asked, item.fields.as_slice())
        }
        TypeItem::Alias(item) => ask_by_type(asked, &item.ty),
        TypeItem::Enum(item) => ask_by_paths(asked, item.derives.as_slice()),
        TypeItem::Flags(item) => ask_by_path(asked, &item.bitflags),
        TypeItem::Variant(item) => {
            ask_by_paths(asked, item.derives.as_slice())?;
            ask_by_variant_cases(asked, item.cases.as_slice())
        }
    }
}

fn ask_by_item(asked: &mut List<RuntimeItem>, item: &Item) -> Result<(), OutOfMemory>
    ensures { OnOk result (asked.new ≡ asked.old ++ asked_by_item item.now) }
{
    match item {
        Item::Import(function) => ask_by_fn(asked, function),
        Item::Export(function) => ask_by_export(asked, function),
        Item::Trait(item) => ask_by_methods(asked, item.functions.as_slice()),
        Item::PostReturn(function) => ask_by_block(asked, &function.body),
        Item::Type(item) => ask_by_definition(asked, item),
        Item::ModuleMacro(_) | Item::RootMacro(_) | Item::Runtime(_) | Item::Area(_) => Ok(()),
    }
}

/// The items of `_rt` that the items of a file name, in the order of the text: each as often as it is named.
pub fn asked_in(alloc: Global, items: &[Item]) -> Result<List<RuntimeItem>, OutOfMemory>
    ensures { IfOk result (λ asked. asked ≡ asked_in items.now) }
{
    let mut asked = List::new(alloc);
    for item in items {
        ask_by_item(&mut asked, item)?;
    }
    Ok(asked)
}
