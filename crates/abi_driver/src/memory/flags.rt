//! Flags are put into memory, and read from it.

ghost use Rattle.std.specs.Prelude.{◌≡◌, [], ◌∷◌, Bool, IfOk, OnOk};
ghost use Rattle.wit_model.specs.TypeOrder.{GoesDown};
ghost use Rattle.wit_model.specs.declared.types.TypeDefKind.TheVariants as kind;
ghost use Rattle.wit_model.specs.declared.types.WitType.TheVariants.{Id};
ghost use Rattle.wit_layout.specs.Extent.{flags_extent};
ghost use Rattle.wrapper_meaning.specs.Shape.{shape_at};
ghost use Rattle.abi_bindgen.specs.Code.{load_code, store_code};
ghost use Rattle.abi_bindgen.specs.HasList.{IsKindOf};
ghost use Rattle.abi_driver.specs.Loads.{LiftsFromMemory};
ghost use Rattle.abi_bindgen.specs.Flows.{Flows};
ghost use Rattle.abi_driver.specs.Low.{EndsLow};
ghost use Rattle.abi_driver.specs.Stores.{LowersToMemory};
ghost use Rattle.abi_bindgen.specs.Written.{Writes};

use crate::lift::flags::flag_words;
use crate::memory::place::word_offset;
use crate::memory::word::{load_word, store_word};
use abi_bindgen::{Bindgen, Instruction, Operand, lower_by, number_load, number_store, send_one};
use std::alloc::Global;
use wit_model::{ArchitectureSize, List, Member, OutOfMemory, Resolve, TypeId};

/// How many bytes each word of so many flags has in memory, as an exponent of 2.
fn flags_grain(flags: usize) -> u32
    ensures { result ≡ (flags_extent flags).grain }
{
    if flags <= 8 {
        0
    } else if flags <= 16 {
        1
    } else {
        2
    }
}

/// A value of flags becomes its words, which are stored, the last one first.
pub(super) fn store_flags<B: Bindgen>(
    alloc: Global,
    resolve: &Resolve,
    bindgen: &mut B,
    address: &B::Operand,
    offset: ArchitectureSize,
    value: B::Operand,
    id: TypeId,
    members: &List<Member>,
) -> Result<(), OutOfMemory>
    requires down { GoesDown resolve.now.types }
    requires here { IsKindOf resolve.now.types id.0 (kind.Flags members.now) }
    requires writes { Writes B.meaning resolve.now.types (Id id) bindgen.old }
    requires low { EndsLow (shape_at resolve.now.types id.0) offset }
    ensures stores { (realloc : Bool) → OnOk result (LowersToMemory B.meaning realloc (shape_at resolve.now.types id.0) value address.now offset bindgen.old bindgen.new) }
    ensures flows { (realloc : Bool) → OnOk result (Flows B.meaning resolve.now.types (store_code resolve.now.types realloc (Id id) offset) (address.now ∷ value ∷ []) [] bindgen.old bindgen.new) }
{
    let grain = flags_grain(members.len());
    let words = lower_by(alloc, resolve, bindgen, value, Instruction::FlagsLower(id))?;
    let words = words.as_slice();
    let count = words.len();
    for behind in 0..count {
        let nth = count - 1 - behind;
        let place = word_offset(offset, nth);
        let word = words[nth].copy(alloc)?;
        let store = number_store(grain, place);
        store_word(alloc, resolve, bindgen, word, address, store)?;
    }
    Ok(())
}

/// Words are loaded in their order, and become a value of flags.
pub(super) fn load_flags<B: Bindgen>(
    alloc: Global,
    resolve: &Resolve,
    bindgen: &mut B,
    address: &B::Operand,
    offset: ArchitectureSize,
    id: TypeId,
    members: &List<Member>,
) -> Result<B::Operand, OutOfMemory>
    requires down { GoesDown resolve.now.types }
    requires here { IsKindOf resolve.now.types id.0 (kind.Flags members.now) }
    requires writes { Writes B.meaning resolve.now.types (Id id) bindgen.old }
    requires low { EndsLow (shape_at resolve.now.types id.0) offset }
    ensures loads { IfOk result (λ r. LiftsFromMemory B.meaning (shape_at resolve.now.types id.0) address.now offset r bindgen.old bindgen.new) }
    ensures flows { IfOk result (λ r. Flows B.meaning resolve.now.types (load_code resolve.now.types (Id id) offset) (address.now ∷ []) (r ∷ []) bindgen.old bindgen.new) }
{
    let flags = members.len();
    let grain = flags_grain(flags);
    let count = flag_words(flags);
    let mut words = List::new(alloc);
    for nth in 0..count {
        let place = word_offset(offset, nth);
        let load = number_load(grain, place);
        let word = load_word(alloc, resolve, bindgen, address, load)?;
        words.push(word)?;
    }
    let operand = send_one(alloc, resolve, bindgen, Instruction::FlagsLift(id), words)?;
    Ok(operand)
}
