//! What makes code of instructions, and its laws.

ghost use Rattle.std.specs.Prelude.{◌≡◌, ◌<◌, ◌^◌, List, [], OnOk, IfOk};
ghost use Rattle.wit_model.specs.Size.{bytes_at};
ghost use Rattle.wit_model.specs.declared.types.TypeDef.{TypeDef};
ghost use Rattle.wit_layout.specs.Filled.{IsFilledFor};
ghost use Rattle.abi_bindgen.specs.Blocks.{Finishes, IsOpen, Pushes};
ghost use Rattle.abi_bindgen.specs.Instructions.{Emits, IsSendable};
ghost use Rattle.abi_bindgen.specs.Area.{IsAlignment};
ghost use Rattle.abi_bindgen.specs.Laws.{PointsTo, Sound};
ghost use Rattle.abi_bindgen.specs.Meaning.{Meaning};

use crate::instruction::Instruction;
use std::alloc::Global;
use wit_layout::SizeAlign;
use wit_model::{Alignment, ArchitectureSize, List, OutOfMemory, Resolve, WitType};

/// What denotes a core word, or a value of the code's own side.
pub trait Operand: Drop {
    /// An equal operand.
    fn copy(&self, alloc: Global) -> Result<Self, OutOfMemory>
        ensures { IfOk result (λ o. o ≡ self.now) };
}

/// A record for which the return area was asked for.
#[derive(Clone, Copy, Debug, PartialEq, Eq)]
pub struct Asked {
    /// Its size, in bytes and pointers.
    pub size: ArchitectureSize,
    /// Its alignment.
    pub align: Alignment,
}

/// What makes code of instructions, after the trait `Bindgen` of wit-bindgen-core.
///
/// What its code means is the ghost member `meaning`. The laws say what the code of each instruction does, so that a caller
/// that knows no more than this trait knows what the code that it asked for does. Besides, the code of each step has the form that
/// `meaning.forms` promises, which is the implementation's own choice. A constructor ensures `IsNew`: without it the laws could be
/// met by code that never runs. After an `Err` it is given up.
pub trait Bindgen {
    /// What denotes a word or a value in the code.
    type Operand: Operand;

    /// What the code does.
    ghost meaning: { Meaning Self Self.Operand };

    /// Adds the code of an instruction, and puts what denotes its results into `results`, which is empty before. The operands
    /// are used up.
    fn emit(
        &mut self,
        resolve: &Resolve,
        inst: &Instruction,
        operands: &mut List<Self::Operand>,
        results: &mut List<Self::Operand>,
    ) -> Result<(), OutOfMemory>
        requires sendable { IsSendable meaning resolve.now inst.now operands.old self.old }
        requires empty { results.old ≡ [] }
        ensures { OnOk result (Emits meaning resolve.now.types inst.now operands.old results.new self.old self.new) };

    /// Suspends the code, and opens a block.
    fn push_block(&mut self) -> Result<(), OutOfMemory>
        ensures { OnOk result (Pushes meaning self.old self.new) };

    /// Closes the innermost open block with these results, and resumes the code before it. The operands are used up.
    fn finish_block(&mut self, operands: &mut List<Self::Operand>) -> Result<(), OutOfMemory>
        requires open { IsOpen meaning self.old }
        ensures { OnOk result (Finishes meaning operands.old self.old self.new) };

    /// What denotes the address of the return area, which has this size and alignment at least. The area of an import stands when its
    /// code begins, and that of an export is placed when it is first asked for. No block is open, and the size is less than 2^31 bytes where
    /// pointers have 8.
    fn return_pointer(
        &mut self,
        size: ArchitectureSize,
        align: Alignment,
    ) -> Result<Self::Operand, OutOfMemory>
        requires closed { meaning.opened self.old ≡ [] }
        requires small { bytes_at size 8 < 2 ^ 31 }
        requires aligned { IsAlignment align }
        ensures { IfOk result (λ o. PointsTo meaning (record { size = size; align = align }) o self.old self.new) };

    /// The layouts of the types of the table that it is for.
    fn sizes(&self) -> &SizeAlign
        ensures { (types : List TypeDef) → meaning.knows self.now types → IsFilledFor result.now types };

    /// Whether a list of this type lies in memory as it is.
    fn is_list_canonical(&self, resolve: &Resolve, ty: &WitType) -> bool;

    /// The meaning is one: facts, operands and items are what these words say.
    ghost sound: { Sound meaning };
}
