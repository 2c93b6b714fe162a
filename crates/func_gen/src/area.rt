//! The return area is asked for, and its address is taken.

ghost use Rattle.std.specs.Prelude.{◌≡◌, ◌<◌, ◌^◌, [], IfOk};
ghost use Rattle.wit_model.specs.Size.{bytes_at};
ghost use Rattle.abi_bindgen.specs.Area.{IsAlignment};
ghost use Rattle.abi_bindgen.specs.Laws.{PointsTo};
ghost use Rattle.func_gen.specs.Area.{area_pointer};
ghost use Rattle.func_gen.specs.Meaning.{func_meaning};

use crate::function_bindgen::FunctionBindgen;
use crate::operand::ExprOperand;
use abi_bindgen::Asked;
use rust_tree::Expr;
use wit_model::OutOfMemory;

impl FunctionBindgen<'_> {
    /// The address of the area: of an import's, which is a local, or of the file's static one.
    fn area_pointer(&self) -> Result<Expr, OutOfMemory>
        ensures { IfOk result (λ e. e ≡ area_pointer self.now) }
    {
        if self.import {
            Ok(Expr::ReturnPointer(self.area.copy(self.alloc)?))
        } else {
            Ok(Expr::StaticPointer)
        }
    }

    /// A new local of the address of the area, which has room for one more record.
    pub(crate) fn point(&mut self, room: Asked) -> Result<ExprOperand, OutOfMemory>
        requires closed { self.old.opened ≡ [] }
        requires small { bytes_at room.size 8 < 2 ^ 31 }
        requires aligned { IsAlignment room.align }
        ensures { IfOk result (λ o. PointsTo func_meaning room o self.old self.new) }
    {
        let pointer = self.area_pointer()?;
        let name = self.let_outside("ptr", pointer)?;
        self.asked.push(room)?;
        let expr = Expr::Local(name);
        Ok(ExprOperand { expr, kept: false })
    }
}
