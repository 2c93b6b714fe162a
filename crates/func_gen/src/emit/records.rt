//! Records are taken apart, and made of their fields.

ghost use Rattle.std.specs.Prelude.{◌≡◌, ℕ, [], Some, true, length, zip, IfOk, OnOk};
ghost use Rattle.rust_tree.specs.declared.pattern.Pattern.TheVariants as pattern;
ghost use Rattle.rust_tree.specs.declared.stmt.Stmt.TheVariants as stmt;
ghost use Rattle.abi_bindgen.specs.Instructions.{Emits, IsSendable, Reads};
ghost use Rattle.abi_bindgen.specs.declared.instruction.Instruction.TheVariants as instruction;
ghost use Rattle.func_gen.specs.Operand.{is_operand};
ghost use Rattle.func_gen.specs.Meaning.{func_meaning};
ghost use Rattle.func_gen.specs.PartForms.{are_operands, exprs_of};
ghost use Rattle.func_gen.specs.RecordForms.{DeclaresFields, MakesRecord, SplitsRecord, locals_for, record_at};
ghost use Rattle.func_gen.specs.Scope.{Keeps, names_at};
ghost use Rattle.func_gen.specs.Written.{WritesRecord};
ghost use Rattle.func_gen.specs.declared.record_site.RecordSite.{RecordSite};

use crate::added::only_expr;
use crate::emit::parts::push_locals;
use crate::function_bindgen::FunctionBindgen;
use crate::operand::{ExprOperand, copy_expr, copy_path};
use crate::record_site::RecordSite;
use crate::scope::{LocalName, Scope};
use crate::type_site::TypeSite;
use rust_tree::{Expr, Pattern, Stmt};
use std::alloc::Global;
use wit_model::{List, OutOfMemory, Resolve, Text, TypeId};

/// Each field with the expression of an operand.
fn field_exprs(
    alloc: Global,
    fields: &[Text],
    operands: &[ExprOperand],
) -> Result<List<(Text, Expr)>, OutOfMemory>
    requires { length operands.now ≡ length fields.now }
    ensures same { IfOk result (λ es. es ≡ zip fields.now (exprs_of operands.now)) }
    ensures operands { IfOk result (λ es. are_operands operands.now ≡ true) }
{
    let mut es = List::new(alloc);
    for (at, operand) in operands.iter().enumerate() {
        let field = fields[at].copy(alloc)?;
        es.push((field, copy_expr(&operand.expr, alloc)?))?;
    }
    Ok(es)
}

/// The names of locals for fields, which get one number.
fn field_names<'a>(alloc: Global, fields: &'a [Text]) -> Result<List<LocalName<'a>>, OutOfMemory>
    ensures { IfOk result (λ names. (t : ℕ) → names_at names t ≡ locals_for fields.now t) }
{
    let mut names = List::new(alloc);
    for field in fields {
        let prefix = field.as_str();
        names.push(LocalName { prefix, part: None })?;
    }
    Ok(names)
}

/// Each field with the name of a local.
fn field_locals(
    alloc: Global,
    fields: &[Text],
    names: &[Text],
) -> Result<List<(Text, Text)>, OutOfMemory>
    requires { length names.now ≡ length fields.now }
    ensures { IfOk result (λ pairs. pairs ≡ zip fields.now names.now) }
{
    let mut pairs = List::new(alloc);
    for (at, name) in names.iter().enumerate() {
        let field = fields[at].copy(alloc)?;
        pairs.push((field, name.copy(alloc)?))?;
    }
    Ok(pairs)
}

/// What takes a record apart, each field into a local.
fn record_pattern(alloc: Global, site: &RecordSite, names: &[Text]) -> Result<Pattern, OutOfMemory>
    requires { length names.now ≡ length site.now.fields }
    ensures { IfOk result (λ p. p ≡ pattern.Record site.now.lowered (zip site.now.fields names.now)) }
{
    let path = copy_path(&site.lowered, alloc)?;
    let pairs = field_locals(alloc, site.fields.as_slice(), names)?;
    Ok(Pattern::Record(path, pairs))
}

/// The statement that takes a record apart.
fn let_fields(
    alloc: Global,
    site: &RecordSite,
    names: &[Text],
    e: &Expr,
) -> Result<Stmt, OutOfMemory>
    requires operand { is_operand e.now ≡ true }
    requires many { length names.now ≡ length site.now.fields }
    ensures { IfOk result (λ s. s ≡ stmt.LetParts (pattern.Record site.now.lowered (zip site.now.fields names.now)) e.now) }
{
    let pattern = record_pattern(alloc, site, names)?;
    Ok(Stmt::LetParts(pattern, copy_expr(e, alloc)?))
}

/// How a record of the table is written.
fn record_site(sites: &[Option<TypeSite>], id: TypeId) -> &RecordSite
    requires { (s : RecordSite) × (record_at sites.now id.0 ≡ Some s) }
    ensures { record_at sites.now id.0 ≡ Some result.now }
{
    match &sites[id.0 as usize] {
        Some(TypeSite::Record(site)) => site,
        _ => unreachable!(),
    }
}

impl Scope {
    /// The names of locals for fields, which get one number.
    fn declare_fields(&mut self, alloc: Global, fields: &[Text]) -> Result<List<Text>, OutOfMemory>
        ensures declares { IfOk result (λ names. DeclaresFields self.old fields.now names self.new) }
        ensures keeps { Keeps self.old.used self.new.used }
    {
        let locals = field_names(alloc, fields)?;
        let names = self.declare_all(alloc, locals.as_slice())?;
        Ok(names)
    }
}

impl FunctionBindgen<'_> {
    /// The expression that makes a record of operands.
    fn record_expr(
        &self,
        resolve: &Resolve,
        id: TypeId,
        operands: &List<ExprOperand>,
    ) -> Result<Expr, OutOfMemory>
        requires site { WritesRecord resolve.now.types self.now.sites id.0 }
        requires reads { Reads resolve.now.types (instruction.RecordLift id) (length operands.now) }
        ensures { IfOk result (λ e. MakesRecord resolve.now.types self.now.sites id.0 operands.now e) }
    {
        let site = record_site(self.tables.sites.as_slice(), id);
        let path = copy_path(&site.lifted, self.alloc)?;
        let fields = field_exprs(self.alloc, site.fields.as_slice(), operands.as_slice())?;
        Ok(Expr::Record(path, fields))
    }

    pub(crate) fn lift_record(
        &mut self,
        resolve: &Resolve,
        id: TypeId,
        operands: &List<ExprOperand>,
        results: &mut List<ExprOperand>,
    ) -> Result<(), OutOfMemory>
        requires sendable { IsSendable func_meaning resolve.now (instruction.RecordLift id) operands.now self.old }
        requires empty { results.old ≡ [] }
        ensures { OnOk result (Emits func_meaning resolve.now.types (instruction.RecordLift id) operands.now results.new self.old self.new) }
    {
        let record = self.record_expr(resolve, id, operands)?;
        let name = self.add_let("record", record)?;
        let expr = Expr::Local(name);
        results.push(ExprOperand { expr, kept: false })?;
        Ok(())
    }

    /// The names of new locals, one for each field of a record.
    fn add_fields(
        &mut self,
        resolve: &Resolve,
        id: TypeId,
        e: &Expr,
    ) -> Result<List<Text>, OutOfMemory>
        requires operand { is_operand e.now ≡ true }
        requires site { WritesRecord resolve.now.types self.old.sites id.0 }
        ensures { IfOk result (λ names. SplitsRecord resolve.now.types id.0 e.now names self.old self.new) }
    {
        let site = record_site(self.tables.sites.as_slice(), id);
        let names = self
            .scope
            .declare_fields(self.alloc, site.fields.as_slice())?;
        let parts = let_fields(self.alloc, site, names.as_slice(), e)?;
        self.code.stmts.push(parts)?;
        Ok(names)
    }

    pub(crate) fn lower_record(
        &mut self,
        resolve: &Resolve,
        id: TypeId,
        operands: &List<ExprOperand>,
        results: &mut List<ExprOperand>,
    ) -> Result<(), OutOfMemory>
        requires sendable { IsSendable func_meaning resolve.now (instruction.RecordLower id) operands.now self.old }
        requires empty { results.old ≡ [] }
        ensures { OnOk result (Emits func_meaning resolve.now.types (instruction.RecordLower id) operands.now results.new self.old self.new) }
    {
        let e = only_expr(operands);
        let names = self.add_fields(resolve, id, e)?;
        push_locals(self.alloc, names.as_slice(), results)?;
        Ok(())
    }
}
