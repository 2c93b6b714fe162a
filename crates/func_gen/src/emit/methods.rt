//! The method of an export is called.

ghost use Rattle.std.specs.Prelude.{◌≡◌, [], false, Some, None, true, IfOk, OnOk};
ghost use Rattle.abi_bindgen.specs.Instructions.{Emits, IsSendable};
ghost use Rattle.abi_bindgen.specs.declared.instruction.Instruction.TheVariants as instruction;
ghost use Rattle.func_gen.specs.Meaning.{func_meaning};
ghost use Rattle.func_gen.specs.MethodForms.{CallsFor, CallsIn};

use crate::emit::calls::expressions;
use crate::function_bindgen::FunctionBindgen;
use crate::operand::ExprOperand;
use crate::scope::{LocalName, numbered};
use rust_tree::{CallBlock, Expr, to_rust_ident};
use wit_model::{Function, List, OutOfMemory, Resolve, Text};

impl FunctionBindgen<'_> {
    /// All code so far goes into the block of the call. There is one, and it comes before the area is asked for.
    pub(crate) fn call_method(
        &mut self,
        resolve: &Resolve,
        func: &Function,
        operands: &List<ExprOperand>,
        results: &mut List<ExprOperand>,
    ) -> Result<(), OutOfMemory>
        requires sendable { IsSendable func_meaning resolve.now (instruction.CallInterface func) operands.now self.old }
        requires empty { results.old ≡ [] }
        ensures { OnOk result (Emits func_meaning resolve.now.types (instruction.CallInterface func.entry) operands.now results.new self.old self.new) }
    {
        let arguments = expressions(self.alloc, operands.as_slice())?;
        if func.result.is_none() {
            self.begin_call(func, arguments, None)?;
            return Ok(());
        }
        let name = self.call_for_value(func, arguments)?;
        let expr = Expr::Local(name);
        results.push(ExprOperand { expr, kept: false })?;
        Ok(())
    }

    /// The method's value is a new local, of this name.
    fn call_for_value(
        &mut self,
        func: &Function,
        arguments: List<Expr>,
    ) -> Result<Text, OutOfMemory>
        requires closed { self.old.opened ≡ [] }
        ensures { IfOk result (λ name. CallsFor func.now arguments name self.old self.new) }
    {
        let value = LocalName {
            prefix: "result",
            part: None,
        };
        let t = self.scope.declare(self.alloc, &[value])?;
        let name = numbered(self.alloc, value, t)?;
        let given = name.copy(self.alloc)?;
        self.begin_call(func, arguments, Some(name))?;
        Ok(given)
    }

    /// The block of the call, whose value this local holds, if there is one.
    fn begin_call(
        &mut self,
        func: &Function,
        arguments: List<Expr>,
        value: Option<Text>,
    ) -> Result<(), OutOfMemory>
        requires closed { self.old.opened ≡ [] }
        ensures calls { OnOk result (CallsIn func.now arguments value self.old self.new) }
        ensures scope { OnOk result (self.new.scope ≡ self.old.scope) }
    {
        let method = to_rust_ident(self.alloc, &func.name)?;
        let stmts = std::mem::replace(&mut self.code.stmts, List::new(self.alloc));
        self.code.call = Some(CallBlock {
            result: value,
            stmts,
            method,
            arguments,
        });
        Ok(())
    }
}
