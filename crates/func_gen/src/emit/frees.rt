//! Texts, and blocks of a size, are freed.

ghost use Rattle.std.specs.Prelude.{◌≡◌, [], ◌∷◌, ◌++◌, true, length, IfOk, OnOk};
ghost use Rattle.std.specs.List.{list_all};
ghost use Rattle.rust_tree.specs.declared.expr.Expr.TheVariants as expr;
ghost use Rattle.rust_tree.specs.declared.stmt.Stmt.TheVariants as stmt;
ghost use Rattle.rust_tree.specs.declared.runtime_item.RuntimeItem.TheVariants.{CabiDealloc};
ghost use Rattle.wrapper_run.specs.Inward.{is_inward_expr};
ghost use Rattle.abi_bindgen.specs.Instructions.{Emits, IsSendable};
ghost use Rattle.abi_bindgen.specs.declared.instruction.Instruction.TheVariants as instruction;
ghost use Rattle.func_gen.specs.Added.{Appends};
ghost use Rattle.func_gen.specs.Operand.{is_operand};
ghost use Rattle.func_gen.specs.Meaning.{func_meaning};
ghost use Rattle.func_gen.specs.Forms.{runtime_path};
ghost use Rattle.func_gen.specs.MemoryForms.{align_size, is_length};

use crate::added::only_expr;
use crate::emit::memory::both_exprs;
use crate::forms::runtime_path;
use crate::function_bindgen::FunctionBindgen;
use crate::operand::{ExprOperand, copy_expr};
use rust_tree::{Expr, RuntimeItem, Stmt};
use std::alloc::Global;
use wit_model::{Alignment, ArchitectureSize, List, OutOfMemory, Resolve};

/// An alignment as a size.
fn align_size(align: Alignment) -> ArchitectureSize
    ensures same { result ≡ align_size align }
    ensures length { is_length result ≡ true }
{
    match align {
        Alignment::Pointer => ArchitectureSize {
            bytes: 0,
            pointers: 1,
        },
        Alignment::Bytes(n) => ArchitectureSize {
            bytes: u64::from(n),
            pointers: 0,
        },
    }
}

/// The arguments of the call that frees so many bytes at an address, but for the alignment.
fn bytes_at(alloc: Global, address: &Expr, n: &Expr) -> Result<List<Expr>, OutOfMemory>
    requires first { is_operand address.now ≡ true }
    requires second { is_operand n.now ≡ true }
    ensures { IfOk result (λ es. es ≡ address.now ∷ n.now ∷ []) }
{
    let mut arguments = List::new(alloc);
    arguments.push(copy_expr(address, alloc)?)?;
    arguments.push(copy_expr(n, alloc)?)?;
    Ok(arguments)
}

/// The same of a block of a size.
fn block_at(
    alloc: Global,
    address: &Expr,
    size: ArchitectureSize,
) -> Result<List<Expr>, OutOfMemory>
    requires operand { is_operand address.now ≡ true }
    ensures { IfOk result (λ es. es ≡ address.now ∷ expr.Size size ∷ []) }
{
    let mut arguments = List::new(alloc);
    arguments.push(copy_expr(address, alloc)?)?;
    arguments.push(Expr::Size(size))?;
    Ok(arguments)
}

impl FunctionBindgen<'_> {
    /// The bytes of these arguments are freed, which have this alignment.
    fn add_free(&mut self, bytes: List<Expr>, align: ArchitectureSize) -> Result<(), OutOfMemory>
        requires inward { list_all is_inward_expr bytes ≡ true }
        ensures adds { OnOk result (Appends self.old self.new (stmt.Expr (expr.Call (runtime_path CabiDealloc) (bytes ++ expr.Size align ∷ [])) ∷ []) (CabiDealloc ∷ [])) }
        ensures scope { OnOk result (self.new.scope ≡ self.old.scope) }
    {
        let mut arguments = bytes;
        arguments.push(Expr::Size(align))?;
        let path = runtime_path(self.alloc, RuntimeItem::CabiDealloc)?;
        self.ask(RuntimeItem::CabiDealloc)?;
        self.add_effect(Stmt::Expr(Expr::Call(path, arguments)))?;
        Ok(())
    }

    pub(crate) fn free_text(
        &mut self,
        resolve: &Resolve,
        operands: &List<ExprOperand>,
        results: &mut List<ExprOperand>,
    ) -> Result<(), OutOfMemory>
        requires two { length operands.now ≡ 2 }
        requires empty { results.old ≡ [] }
        ensures { OnOk result (Emits func_meaning resolve.now.types instruction.GuestDeallocateString operands.now results.new self.old self.new) }
    {
        let (address, n) = both_exprs(operands);
        let bytes = bytes_at(self.alloc, address, n)?;
        self.add_free(bytes, align_size(Alignment::Bytes(1)))?;
        Ok(())
    }

    pub(crate) fn free_block(
        &mut self,
        resolve: &Resolve,
        size: ArchitectureSize,
        align: Alignment,
        operands: &List<ExprOperand>,
        results: &mut List<ExprOperand>,
    ) -> Result<(), OutOfMemory>
        requires sendable { IsSendable func_meaning resolve.now (instruction.GuestDeallocate size align) operands.now self.old }
        requires empty { results.old ≡ [] }
        ensures { OnOk result (Emits func_meaning resolve.now.types (instruction.GuestDeallocate size align) operands.now results.new self.old self.new) }
    {
        let address = only_expr(operands);
        let block = block_at(self.alloc, address, size)?;
        self.add_free(block, align_size(align))?;
        Ok(())
    }
}
