//! The body of a wrapper, once its code was made.

ghost use Rattle.std.specs.Prelude.{◌≡◌, ◌≤◌, [], true, length, IfSome};
ghost use Rattle.std.specs.List.{AllByRecursion};
ghost use Rattle.func_gen.specs.Body.{Gives, IsBodyOf, greater, needed};
ghost use Rattle.func_gen.specs.Operand.{is_operand};
ghost use Rattle.func_gen.specs.Whole.{IsSmall};

use crate::function_bindgen::{Code, FunctionBindgen};
use crate::operand::ExprOperand;
use abi_bindgen::Asked;
use rust_tree::{CallBlock, Expr, RuntimeItem, Stmt};
use std::alloc::Global;
use wit_model::{Alignment, ArchitectureSize, List};

/// What the body of a wrapper is.
#[derive(Drop)]
pub struct Body {
    /// Of an export, the block that calls the method.
    pub call: Option<CallBlock>,
    /// The statements: all of an import, and of an export those behind that block.
    pub stmts: List<Stmt>,
    /// What is given: the value of an import, or the core word of an export, if there is one.
    pub tail: Option<Expr>,
    /// The return area that is needed, if any is: its size and its alignment.
    pub area: Option<Asked>,
    /// The items of `_rt` that the code names.
    pub runtime: List<RuntimeItem>,
}

impl FunctionBindgen<'_> {
    /// The body that was made. No block is open, and the code gives one operand at most. It takes no memory.
    pub fn finish(self) -> Body
        requires closed { self.opened ≡ [] }
        requires few { IfSome self.returned (λ os. length os ≤ 1) }
        ensures { IsBodyOf self.entry result }
    {
        let FunctionBindgen {
            code,
            runtime,
            asked,
            returned,
            ..
        } = self;
        let area = needed_area(asked.as_slice());
        let tail = tail_of(returned);
        let Code { call, stmts } = code;
        Body {
            call,
            stmts,
            tail,
            area,
            runtime,
        }
    }
}

/// What the code gives: nothing, or the one operand.
fn tail_of(returned: Option<List<ExprOperand>>) -> Option<Expr>
    requires few { IfSome returned (λ os. length os ≤ 1) }
    ensures gives { Gives returned result }
    ensures operand { IfSome result (λ e. is_operand e ≡ true) }
{
    let operand = returned?.into_vec().pop()?;
    let ExprOperand { expr, kept: _ } = operand;
    Some(expr)
}

/// The area for all these records, of whose sizes each is one that a memory has. So is its own.
pub fn needed_area(asked: &[Asked]) -> Option<Asked>
    requires small { AllByRecursion IsSmall asked.now }
    ensures needed { result ≡ needed asked.now }
    ensures small { IfSome result IsSmall }
{
    if asked.is_empty() {
        return None;
    }
    let mut area = Asked {
        size: ArchitectureSize {
            bytes: 0,
            pointers: 0,
        },
        align: Alignment::Bytes(1),
    };
    for record in asked {
        area = greater(&area, record);
    }
    Some(area)
}

/// The greater size and the greater alignment.
fn greater(a: &Asked, b: &Asked) -> Asked
    requires first { IsSmall a.now }
    requires second { IsSmall b.now }
    ensures { result ≡ greater a.now b.now }
{
    Asked {
        size: a.size.max(&b.size),
        align: a.align.max(&b.align),
    }
}
