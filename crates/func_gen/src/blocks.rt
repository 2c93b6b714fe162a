//! Blocks of code are opened, and their names are read.

ghost use Rattle.std.specs.Prelude.{◌≡◌, [], Some, IfOk, OnOk};
ghost use Rattle.abi_bindgen.specs.Blocks.{IsOpen, Pushes};
ghost use Rattle.abi_bindgen.specs.Instructions.{Emits};
ghost use Rattle.func_gen.specs.Meaning.{func_meaning};
ghost use Rattle.func_gen.specs.Opened.{innermost, stem_read};
ghost use Rattle.func_gen.specs.Scope.{Keeps, Takes};
ghost use Rattle.func_gen.specs.Slot.{block_names};
ghost use Rattle.func_gen.specs.Suspends.{Suspends};

use crate::function_bindgen::{Code, FunctionBindgen, OpenBlock};
use crate::operand::ExprOperand;
use crate::scope::{LocalName, Scope, numbered};
use abi_bindgen::Instruction;
use rust_tree::Expr;
use std::alloc::Global;
use wit_model::{List, OutOfMemory, Resolve};

impl Scope {
    /// The number of the names of a block.
    fn declare_block(&mut self, alloc: Global) -> Result<u32, OutOfMemory>
        ensures takes { IfOk result (λ k. Takes self.old block_names k self.new) }
        ensures keeps { Keeps self.old.used self.new.used }
    {
        let element = LocalName {
            prefix: "e",
            part: None,
        };
        let base = LocalName {
            prefix: "base",
            part: None,
        };
        let turn = LocalName {
            prefix: "i",
            part: None,
        };
        let key = LocalName {
            prefix: "map_key",
            part: None,
        };
        let value = LocalName {
            prefix: "map_value",
            part: None,
        };
        let number = self.declare(alloc, &[element, base, turn, key, value])?;
        Ok(number)
    }
}

impl FunctionBindgen<'_> {
    /// The code so far is suspended, and the names of the block get one number.
    fn suspend(&mut self) -> Result<(), OutOfMemory>
        ensures { OnOk result (Suspends self.old self.new) }
    {
        let names = self.scope.used.share(self.alloc)?;
        let number = self.scope.declare_block(self.alloc)?;
        let empty = Code {
            call: None,
            stmts: List::new(self.alloc),
        };
        let code = std::mem::replace(&mut self.code, empty);
        self.opened.push(OpenBlock {
            number,
            names,
            code,
        })?;
        Ok(())
    }

    /// Opens a block.
    pub(crate) fn open_block(&mut self) -> Result<(), OutOfMemory>
        ensures { OnOk result (Pushes func_meaning self.old self.new) }
    {
        self.suspend()?;
        Ok(())
    }

    /// The number of the innermost open block.
    fn innermost(&self) -> u32
        requires { IsOpen func_meaning self.now }
        ensures { innermost self.now.opened ≡ Some result }
    {
        match self.opened.as_slice().last() {
            Some(block) => block.number,
            None => unreachable!(),
        }
    }

    /// The local of a name of the innermost open block, by what stands before its number.
    pub(crate) fn read_name(
        &mut self,
        resolve: &Resolve,
        inst: &Instruction,
        stem: &str,
        results: &mut List<ExprOperand>,
    ) -> Result<(), OutOfMemory>
        requires is_open { IsOpen func_meaning self.old }
        requires stem { stem_read inst.now ≡ Some stem.now }
        requires empty { results.old ≡ [] }
        ensures { OnOk result (Emits func_meaning resolve.now.types inst.now [] results.new self.old self.new) }
    {
        let number = self.innermost();
        let name = LocalName {
            prefix: stem,
            part: None,
        };
        let expr = Expr::Local(numbered(self.alloc, name, number)?);
        results.push(ExprOperand { expr, kept: false })?;
        Ok(())
    }
}
