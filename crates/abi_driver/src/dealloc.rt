//! The blocks of values are freed.

mod flat;
pub(crate) mod memory;
pub(crate) mod places;
mod variants;

ghost use Rattle.std.specs.Prelude.{◌≡◌, ◌≤◌, [], true, false, length, OnOk};
ghost use Rattle.std.specs.List.{list_all};
ghost use Rattle.wit_model.specs.TypeOrder.{GoesDown, type_below};
ghost use Rattle.wit_model.specs.WellFormed.{IsWellFormed};
ghost use Rattle.abi_bindgen.specs.Code.{free_types_code};
ghost use Rattle.abi_bindgen.specs.Frees.{FreesTypes};
ghost use Rattle.abi_bindgen.specs.Instructions.{shapes_of};
ghost use Rattle.abi_bindgen.specs.Flows.{Flows};
ghost use Rattle.abi_bindgen.specs.Served.{ServesAll};
ghost use Rattle.abi_bindgen.specs.WordCount.{word_counts};
ghost use Rattle.abi_driver.specs.Low.{IsSmallRecord};

use crate::dealloc::flat::free_words;
use crate::dealloc::memory::free_record;
use abi_bindgen::Bindgen;
use std::alloc::Global;
use wit_model::{List, OutOfMemory, Resolve, WitType};

/// Frees the blocks of values of some types, after `deallocate_lists_in_types` of wit-bindgen-core.
///
/// Where they were passed indirectly, one operand denotes the address of a record of them. It has at most 2^31 - 1 bytes where pointers have 8.
/// Else there is an operand for each of their words, of which there are sixteen at most. So far they are scalars, texts, enums and flags, or
/// records, tuples, variants, options and results of such, also through aliases. The answer is `OutOfMemory` where there is no memory for the
/// code, or for the operands.
pub fn deallocate_lists_in_types<B: Bindgen>(
    alloc: Global,
    resolve: &Resolve,
    types: &[WitType],
    operands: &List<B::Operand>,
    indirect: bool,
    bindgen: &mut B,
) -> Result<(), OutOfMemory>
    requires well { IsWellFormed resolve.now }
    requires down { GoesDown resolve.now.types }
    requires below { list_all (λ ty. type_below (length resolve.now.types) ty) types.now ≡ true }
    requires knows { B.meaning.knows bindgen.old resolve.now.types }
    requires serves { ServesAll (shapes_of resolve.now.types types.now) }
    requires record { indirect ≡ true → IsSmallRecord resolve.now.types types.now × (length operands.now ≡ 1) }
    requires words { indirect ≡ false → length operands.now ≡ word_counts resolve.now.types types.now }
    requires few { indirect ≡ false → length operands.now ≤ 16 }
    ensures frees { OnOk result (FreesTypes B.meaning indirect (shapes_of resolve.now.types types.now) operands.now bindgen.old bindgen.new) }
    ensures flows { OnOk result (Flows B.meaning resolve.now.types (free_types_code resolve.now.types indirect types.now) operands.now [] bindgen.old bindgen.new) }
{
    let operands = operands.as_slice();
    if indirect {
        return free_at(alloc, resolve, types, operands, bindgen);
    }
    free_words(alloc, resolve, types, operands, bindgen)
}

/// The blocks of a record of these types, of which one operand denotes the address.
fn free_at<B: Bindgen>(
    alloc: Global,
    resolve: &Resolve,
    types: &[WitType],
    operands: &[B::Operand],
    bindgen: &mut B,
) -> Result<(), OutOfMemory>
    requires down { GoesDown resolve.now.types }
    requires below { list_all (λ ty. type_below (length resolve.now.types) ty) types.now ≡ true }
    requires knows { B.meaning.knows bindgen.old resolve.now.types }
    requires serves { ServesAll (shapes_of resolve.now.types types.now) }
    requires small { IsSmallRecord resolve.now.types types.now }
    requires one { length operands.now ≡ 1 }
    ensures frees { OnOk result (FreesTypes B.meaning true (shapes_of resolve.now.types types.now) operands.now bindgen.old bindgen.new) }
    ensures flows { OnOk result (Flows B.meaning resolve.now.types (free_types_code resolve.now.types true types.now) operands.now [] bindgen.old bindgen.new) }
{
    free_record(alloc, resolve, types, &operands[0], bindgen)?;
    Ok(())
}
