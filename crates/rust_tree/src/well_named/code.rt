//! Expressions and statements.

ghost use Rattle.std.specs.Prelude.{◌≡◌, ◌&&◌, map};
ghost use Rattle.std.specs.List.{list_all};
ghost use Rattle.rust_tree.specs.WellNamed.{are_fields, are_match_names, are_words, has_two, is_absent_or, is_case_path, is_named_arm, is_named_arm_pattern, is_named_block, is_named_expr, is_named_import, is_named_pattern, is_named_stmt};
ghost use Rattle.rust_tree.specs.Ident.{is_ident};

use crate::expr::Expr;
use crate::path::Path;
use crate::pattern::{ArmPattern, Pattern};
use crate::stmt::{Arm, Block, ImportDecl, MatchNames, Stmt};
use crate::well_named::text::{are_path_names, is_name, is_quotable};
use wit_model::Text;

fn has_two(names: &[Text]) -> bool
    ensures { result ≡ has_two names.now }
{
    matches!(names, [_, _, ..])
}

fn is_case_path(path: &Path) -> bool
    ensures { result ≡ is_case_path path.now }
{
    are_path_names(path.names.as_slice()) && has_two(path.names.as_slice())
}

#[cycle(named_expr)]
fn is_named_expr(e: &Expr) -> bool
    ensures { result ≡ is_named_expr e.now }
{
    match e {
        Expr::Local(name) | Expr::Ref(name) => is_name(name),
        Expr::AsPtr(name) | Expr::Len(name) | Expr::CastMut(name) => is_name(name),
        Expr::ReturnPointer(name) | Expr::IntoBoxedBytes(name) => is_name(name),
        Expr::Cast(e, _) | Expr::I32FromBool(e) | Expr::EnumNumber(e) => is_named_expr(e.get()),
        Expr::Call(path, arguments) => are_path_names(path.names.as_slice())
            && are_named_exprs(arguments.as_slice()),
        Expr::Load(address, _, _) => is_named_expr(address.get()),
        Expr::LoadSmall(address, _, _) => is_named_expr(address.get()),
        Expr::FromRawParts(pointer, len) => is_named_expr(pointer.get()) && is_name(len),
        Expr::StaticPointer | Expr::Size(_) | Expr::Unit => true,
        Expr::Record(path, fields) => {
            are_path_names(path.names.as_slice()) && are_named_fields(fields.as_slice())
        }
        Expr::Tuple(parts) => are_named_exprs(parts.as_slice()),
        Expr::Array(parts) => are_named_exprs(parts.as_slice()),
        Expr::FlagsBits(name, _) => is_name(name),
        Expr::FlagsOfWords(path, _, words) => {
            are_path_names(path.names.as_slice()) && are_named_words(words.as_slice())
        }
        Expr::I32Const(_) | Expr::Zero(_) => true,
        Expr::Case(path) => is_case_path(path),
        Expr::Method(e, _) => is_named_expr(e.get()),
    }
}

#[cycle(named_expr)]
pub(crate) fn are_named_exprs(list: &[Expr]) -> bool
    ensures { result ≡ list_all is_named_expr list.now }
{
    for e in list {
        if !is_named_expr(e) {
            return false;
        }
    }
    true
}

#[cycle(named_expr)]
fn are_named_fields(fields: &[(Text, Expr)]) -> bool
    ensures { result ≡ are_fields (map (λ f. (f.0, is_named_expr f.1)) fields.now) }
{
    for field in fields {
        if !(is_name(&field.0) && is_named_expr(&field.1)) {
            return false;
        }
    }
    true
}

#[cycle(named_expr)]
fn are_named_words(words: &[(u32, Expr)]) -> bool
    ensures { result ≡ are_words (map (λ w. (w.0, is_named_expr w.1)) words.now) }
{
    for word in words {
        if !is_named_expr(&word.1) {
            return false;
        }
    }
    !words.is_empty()
}

fn is_named_import(d: &ImportDecl) -> bool
    ensures { result ≡ is_named_import d.now }
{
    is_quotable(&d.module) && is_quotable(&d.link_name) && is_name(&d.name)
}

fn are_names(names: &[Text]) -> bool
    ensures { result ≡ list_all is_ident names.now }
{
    names.iter().all(|name| is_name(name))
}

fn are_bound_fields(fields: &[(Text, Text)]) -> bool
    ensures { result ≡ are_fields (map (λ f. (f.0, is_ident f.1)) fields.now) }
{
    for field in fields {
        if !(is_name(&field.0) && is_name(&field.1)) {
            return false;
        }
    }
    true
}

fn is_named_pattern(pattern: &Pattern) -> bool
    ensures { result ≡ is_named_pattern pattern.now }
{
    match pattern {
        Pattern::Record(path, fields) => {
            are_path_names(path.names.as_slice()) && are_bound_fields(fields.as_slice())
        }
        Pattern::Tuple(names) | Pattern::Array(names) => are_names(names.as_slice()),
    }
}

fn is_named_arm_pattern(pattern: &ArmPattern) -> bool
    ensures { result ≡ is_named_arm_pattern pattern.now }
{
    match pattern {
        ArmPattern::Case(path) | ArmPattern::LeftOut(path) => is_case_path(path),
        ArmPattern::Payload(path, name) => is_case_path(path) && is_name(name),
        ArmPattern::Number(_) | ArmPattern::AnyOther => true,
        ArmPattern::Name(name) => is_name(name),
    }
}

fn are_match_names(names: &MatchNames) -> bool
    ensures { result ≡ are_match_names names.now }
{
    match names {
        MatchNames::Nothing => true,
        MatchNames::One(name) => is_name(name),
        MatchNames::Parts(parts) => are_names(parts.as_slice()),
    }
}

fn is_match_head(names: &MatchNames, e: &Expr) -> bool
    ensures { result ≡ (are_match_names names.now && is_named_expr e.now) }
{
    are_match_names(names) && is_named_expr(e)
}

#[cycle(named_stmt)]
fn is_named_stmt(stmt: &Stmt) -> bool
    ensures { result ≡ is_named_stmt stmt.now }
{
    match stmt {
        Stmt::Import(decl) => is_named_import(decl),
        Stmt::Let(name, e) => is_name(name) && is_named_expr(e),
        Stmt::Expr(e) => is_named_expr(e),
        Stmt::Area(area) => is_name(&area.name),
        Stmt::Store(address, _, _, e) => is_named_expr(address) && is_named_expr(e),
        Stmt::StoreSmall(address, _, _, e) => is_named_expr(address) && is_named_expr(e),
        Stmt::LetParts(pattern, e) => is_named_pattern(pattern) && is_named_expr(e),
        Stmt::Match(names, e, arms) => {
            is_match_head(names, e) && are_named_arms(arms.as_slice())
        }
        Stmt::AssertLast(name, _) | Stmt::LetSlot(name) => is_name(name),
        Stmt::WriteSlot(name, e) => is_name(name) && is_named_expr(e),
    }
}

#[cycle(named_stmt)]
fn are_named_arms(arms: &[Arm]) -> bool
    ensures { result ≡ list_all is_named_arm arms.now }
{
    for arm in arms {
        if !is_named_arm(arm) {
            return false;
        }
    }
    true
}

#[cycle(named_stmt)]
fn is_named_arm(arm: &Arm) -> bool
    ensures { result ≡ is_named_arm arm.now }
{
    is_named_arm_pattern(&arm.pattern) && is_named_block(&arm.body)
}

#[cycle(named_stmt)]
pub(crate) fn is_named_block(block: &Block) -> bool
    ensures { result ≡ is_named_block block.now }
{
    are_named_stmts(block.stmts.as_slice()) && is_named_tail(&block.tail)
}

#[cycle(named_stmt)]
pub(crate) fn are_named_stmts(stmts: &[Stmt]) -> bool
    ensures { result ≡ list_all is_named_stmt stmts.now }
{
    for stmt in stmts {
        if !is_named_stmt(stmt) {
            return false;
        }
    }
    true
}

fn is_named_tail(tail: &Option<Expr>) -> bool
    ensures { result ≡ is_absent_or is_named_expr tail.now }
{
    match tail {
        None => true,
        Some(e) => is_named_expr(e),
    }
}
