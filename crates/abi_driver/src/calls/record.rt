//! The arguments of an export, where they stand in a record whose address is the one argument.

ghost use Rattle.std.specs.Prelude.{◌≡◌, ◌<◌, ◌^◌, [], ◌∷◌, true, length, IfOk, OnOk, IfSome};
ghost use Rattle.std.specs.List.{list_all};
ghost use Rattle.wit_model.specs.WellFormed.{IsWellFormed};
ghost use Rattle.wit_model.specs.TypeOrder.{GoesDown, type_below};
ghost use Rattle.wrapper_meaning.specs.Shape.Shape.{fields};
ghost use Rattle.abi_bindgen.specs.Code as code;
ghost use Rattle.abi_bindgen.specs.Code.{free_block_code, take_record_code};
ghost use Rattle.abi_driver.specs.Exports.{FreesArguments, TakesRecordOver};
ghost use Rattle.abi_bindgen.specs.Frees.{nowhere};
ghost use Rattle.abi_bindgen.specs.Instructions.{shapes_of};
ghost use Rattle.abi_driver.specs.Loads.{LoadsParts};
ghost use Rattle.abi_bindgen.specs.Flows.{Flows};
ghost use Rattle.abi_bindgen.specs.Served.{ServesAll};
ghost use Rattle.abi_bindgen.specs.Written.{WritesEach};
ghost use Rattle.abi_driver.specs.Low.{IsSmallRecord};

use crate::dealloc::places::record_places;
use crate::memory::load::load_type;
use abi_bindgen::{Bindgen, Instruction, argument, only, send};
use std::alloc::Global;
use wit_model::{List, OutOfMemory, Resolve, WitType};

/// The values of the arguments are loaded, and then the block of their record is freed.
pub(super) fn load_arguments<B: Bindgen>(
    alloc: Global,
    resolve: &Resolve,
    bindgen: &mut B,
    tys: &[WitType],
) -> Result<List<B::Operand>, OutOfMemory>
    requires well { IsWellFormed resolve.now }
    requires down { GoesDown resolve.now.types }
    requires below { list_all (λ ty. type_below (length resolve.now.types) ty) tys.now ≡ true }
    requires knows { B.meaning.knows bindgen.old resolve.now.types }
    requires arguments { IfSome (B.meaning.arguments bindgen.old) (λ k. 0 < k) }
    requires serves { ServesAll (shapes_of resolve.now.types tys.now) }
    requires writes { WritesEach B.meaning resolve.now.types tys.now bindgen.old }
    requires small { IsSmallRecord resolve.now.types tys.now }
    requires few { length tys.now < 2 ^ 32 }
    ensures takes { IfOk result (λ values. TakesRecordOver B.meaning resolve.now.types (shapes_of resolve.now.types tys.now) values bindgen.old bindgen.new) }
    ensures flows { IfOk result (λ values. Flows B.meaning resolve.now.types (take_record_code resolve.now.types tys.now) [] values bindgen.old bindgen.new) }
{
    let address = argument(alloc, resolve, bindgen, 0)?;
    let parts = load_at(alloc, resolve, bindgen, tys, &address)?;
    let count = parts.len() as u32;
    let values = send(alloc, resolve, bindgen, Instruction::Flush(count), parts)?;
    free_arguments(alloc, resolve, bindgen, tys)?;
    Ok(values)
}

/// The parts of the record at an address.
fn load_at<B: Bindgen>(
    alloc: Global,
    resolve: &Resolve,
    bindgen: &mut B,
    tys: &[WitType],
    address: &B::Operand,
) -> Result<List<B::Operand>, OutOfMemory>
    requires well { IsWellFormed resolve.now }
    requires down { GoesDown resolve.now.types }
    requires below { list_all (λ ty. type_below (length resolve.now.types) ty) tys.now ≡ true }
    requires knows { B.meaning.knows bindgen.old resolve.now.types }
    requires serves { ServesAll (shapes_of resolve.now.types tys.now) }
    requires writes { WritesEach B.meaning resolve.now.types tys.now bindgen.old }
    requires small { IsSmallRecord resolve.now.types tys.now }
    ensures count { IfOk result (λ parts. length parts ≡ length tys.now) }
    ensures loads { IfOk result (λ parts. LoadsParts B.meaning (shapes_of resolve.now.types tys.now) address.now nowhere 0 parts bindgen.old bindgen.new) }
    ensures flows { IfOk result (λ parts. Flows B.meaning resolve.now.types (code.load_arguments resolve.now.types tys.now) (address.now ∷ []) parts bindgen.old bindgen.new) }
{
    let sizes = bindgen.sizes();
    let places = record_places(alloc, sizes, tys)?;
    let mut parts = List::new(alloc);
    for i in 0..tys.len() {
        let place = places.as_slice()[i];
        let part = load_type(alloc, resolve, bindgen, address, place, tys[i])?;
        parts.push(part)?;
    }
    Ok(parts)
}

/// The block of the record is freed, whose address is read again.
fn free_arguments<B: Bindgen>(
    alloc: Global,
    resolve: &Resolve,
    bindgen: &mut B,
    tys: &[WitType],
) -> Result<(), OutOfMemory>
    requires below { list_all (λ ty. type_below (length resolve.now.types) ty) tys.now ≡ true }
    requires knows { B.meaning.knows bindgen.old resolve.now.types }
    requires arguments { IfSome (B.meaning.arguments bindgen.old) (λ k. 0 < k) }
    requires small { IsSmallRecord resolve.now.types tys.now }
    ensures frees { OnOk result (FreesArguments B.meaning resolve.now.types (shapes_of resolve.now.types tys.now) bindgen.old bindgen.new) }
    ensures flows { OnOk result (Flows B.meaning resolve.now.types (free_block_code (fields (shapes_of resolve.now.types tys.now))) [] [] bindgen.old bindgen.new) }
{
    let sizes = bindgen.sizes();
    let (size, align) = sizes.record_of(tys);
    let address = argument(alloc, resolve, bindgen, 0)?;
    let operands = only(alloc, address)?;
    let inst = Instruction::GuestDeallocate(size, align);
    let _none = send(alloc, resolve, bindgen, inst, operands)?;
    Ok(())
}
