//! How the cases of a match are taken.

ghost use Rattle.std.specs.Prelude.{◌≡◌, IfOk};
ghost use Rattle.abi_bindgen.specs.Meaning.{the_payload};
ghost use Rattle.func_gen.specs.MatchForms.{case_pattern};
ghost use Rattle.func_gen.specs.Slot.{slot_name};

use crate::operand::copy_path;
use crate::scope::{LocalName, numbered};
use rust_tree::{ArmPattern, Path};
use std::alloc::Global;
use wit_model::{OutOfMemory, Text};

/// How a case is taken: by itself, with its payload under the name of its block, or with its payload left out.
#[derive(Drop)]
pub(crate) enum CaseForm {
    Bare(Path),
    Full(Path),
    LeftOut(Path),
}

/// The pattern of an arm for a block of this number.
pub(crate) fn case_pattern(
    alloc: Global,
    case: &CaseForm,
    number: u32,
) -> Result<ArmPattern, OutOfMemory>
    ensures { IfOk result (λ p. p ≡ case_pattern case.now number) }
{
    match case {
        CaseForm::Bare(path) => Ok(ArmPattern::Case(copy_path(path, alloc)?)),
        CaseForm::LeftOut(path) => Ok(ArmPattern::LeftOut(copy_path(path, alloc)?)),
        CaseForm::Full(path) => {
            let name = payload_name(alloc, number)?;
            Ok(ArmPattern::Payload(copy_path(path, alloc)?, name))
        }
    }
}

/// The local that holds the payload in an arm for a block of this number.
fn payload_name(alloc: Global, number: u32) -> Result<Text, OutOfMemory>
    ensures { IfOk result (λ name. name ≡ slot_name the_payload number) }
{
    let name = LocalName {
        prefix: "e",
        part: None,
    };
    numbered(alloc, name, number)
}
