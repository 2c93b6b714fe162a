//! Records that pass by the return area.

ghost use Rattle.std.specs.Prelude.{◌≡◌, ◌<◌, ◌^◌, [], ◌∷◌, IsTrue, true, length, IfOk, OnOk};
ghost use Rattle.std.specs.List.{list_all};
ghost use Rattle.wit_model.specs.WellFormed.{IsWellFormed};
ghost use Rattle.wit_model.specs.TypeOrder.{GoesDown, type_below};
ghost use Rattle.wrapper_meaning.specs.Shape.{shape_of};
ghost use Rattle.wrapper_meaning.specs.Shape.Shape.{fields};
ghost use Rattle.abi_bindgen.specs.Code as code;
ghost use Rattle.abi_bindgen.specs.Code.{ask_for};
ghost use Rattle.abi_driver.specs.Imports.{PassesRecord, Points};
ghost use Rattle.abi_bindgen.specs.Instructions.{shapes_of};
ghost use Rattle.abi_bindgen.specs.Laws.{IsCount};
ghost use Rattle.abi_bindgen.specs.Flow.{both, same, ◌>>>◌};
ghost use Rattle.abi_bindgen.specs.Flows.{Flows};
ghost use Rattle.abi_bindgen.specs.Served.{ServesAll};
ghost use Rattle.abi_bindgen.specs.Written.{WritesEach};
ghost use Rattle.abi_driver.specs.Low.{IsSmallRecord};
ghost use Rattle.abi_driver.specs.Stores.{StoresArguments};

use crate::dealloc::places::record_places;
use crate::memory::store::store_type;
use abi_bindgen::{Bindgen, argument};
use std::alloc::Global;
use wit_model::{List, OutOfMemory, Resolve, WitType};

/// What denotes the address of the area, which is asked for a value of this type, outside of all blocks.
pub(super) fn point_at<B: Bindgen>(
    resolve: &Resolve,
    bindgen: &mut B,
    ty: WitType,
) -> Result<B::Operand, OutOfMemory>
    requires below { IsTrue (type_below (length resolve.now.types) ty) }
    requires knows { B.meaning.knows bindgen.old resolve.now.types }
    requires closed { B.meaning.opened bindgen.old ≡ [] }
    ensures points { IfOk result (λ o. Points B.meaning (shape_of resolve.now.types ty) o bindgen.old bindgen.new) }
    ensures flows { IfOk result (λ o. Flows B.meaning resolve.now.types (ask_for (shape_of resolve.now.types ty)) [] (o ∷ []) bindgen.old bindgen.new) }
{
    let sizes = bindgen.sizes();
    let size = sizes.size(&ty);
    let align = sizes.align(&ty);
    let operand = bindgen.return_pointer(size, align)?;
    Ok(operand)
}

/// The same of a record of these types.
fn point_at_record<B: Bindgen>(
    resolve: &Resolve,
    bindgen: &mut B,
    tys: &[WitType],
) -> Result<B::Operand, OutOfMemory>
    requires below { list_all (λ ty. type_below (length resolve.now.types) ty) tys.now ≡ true }
    requires knows { B.meaning.knows bindgen.old resolve.now.types }
    requires small { IsSmallRecord resolve.now.types tys.now }
    requires closed { B.meaning.opened bindgen.old ≡ [] }
    ensures points { IfOk result (λ o. Points B.meaning (fields (shapes_of resolve.now.types tys.now)) o bindgen.old bindgen.new) }
    ensures flows { IfOk result (λ o. Flows B.meaning resolve.now.types (ask_for (fields (shapes_of resolve.now.types tys.now))) [] (o ∷ []) bindgen.old bindgen.new) }
{
    let sizes = bindgen.sizes();
    let (size, align) = sizes.record_of(tys);
    let operand = bindgen.return_pointer(size, align)?;
    Ok(operand)
}

/// The arguments are lent: each is stored in a record in the area, of which the operand denotes the address.
pub(super) fn store_arguments<B: Bindgen>(
    alloc: Global,
    resolve: &Resolve,
    bindgen: &mut B,
    tys: &[WitType],
) -> Result<B::Operand, OutOfMemory>
    requires well { IsWellFormed resolve.now }
    requires down { GoesDown resolve.now.types }
    requires below { list_all (λ ty. type_below (length resolve.now.types) ty) tys.now ≡ true }
    requires side { B.meaning.imports bindgen.old ≡ true }
    requires knows { B.meaning.knows bindgen.old resolve.now.types }
    requires arguments { IsCount B.meaning (B.meaning.arguments bindgen.old) (length tys.now) }
    requires serves { ServesAll (shapes_of resolve.now.types tys.now) }
    requires writes { WritesEach B.meaning resolve.now.types tys.now bindgen.old }
    requires small { IsSmallRecord resolve.now.types tys.now }
    requires few { length tys.now < 2 ^ 32 }
    requires closed { B.meaning.opened bindgen.old ≡ [] }
    ensures passes { IfOk result (λ o. PassesRecord B.meaning (shapes_of resolve.now.types tys.now) o bindgen.old bindgen.new) }
    ensures flows { IfOk result (λ o. Flows B.meaning resolve.now.types (ask_for (fields (shapes_of resolve.now.types tys.now)) >>> both (code.store_arguments resolve.now.types tys.now) same) [] (o ∷ []) bindgen.old bindgen.new) }
{
    let address = point_at_record(resolve, bindgen, tys)?;
    store_at(alloc, resolve, bindgen, tys, &address)?;
    Ok(address)
}

/// The arguments are read and stored, one after another, at their places in a record at an address.
fn store_at<B: Bindgen>(
    alloc: Global,
    resolve: &Resolve,
    bindgen: &mut B,
    tys: &[WitType],
    address: &B::Operand,
) -> Result<(), OutOfMemory>
    requires well { IsWellFormed resolve.now }
    requires down { GoesDown resolve.now.types }
    requires below { list_all (λ ty. type_below (length resolve.now.types) ty) tys.now ≡ true }
    requires side { B.meaning.imports bindgen.old ≡ true }
    requires knows { B.meaning.knows bindgen.old resolve.now.types }
    requires arguments { IsCount B.meaning (B.meaning.arguments bindgen.old) (length tys.now) }
    requires serves { ServesAll (shapes_of resolve.now.types tys.now) }
    requires writes { WritesEach B.meaning resolve.now.types tys.now bindgen.old }
    requires small { IsSmallRecord resolve.now.types tys.now }
    requires few { length tys.now < 2 ^ 32 }
    ensures stores { OnOk result (StoresArguments B.meaning (shapes_of resolve.now.types tys.now) 0 address.now 0 bindgen.old bindgen.new) }
    ensures flows { OnOk result (Flows B.meaning resolve.now.types (code.store_arguments resolve.now.types tys.now) (address.now ∷ []) [] bindgen.old bindgen.new) }
{
    let sizes = bindgen.sizes();
    let places = record_places(alloc, sizes, tys)?;
    for i in 0..tys.len() {
        let value = argument(alloc, resolve, bindgen, i as u32)?;
        let place = places.as_slice()[i];
        store_type(
            alloc, resolve, bindgen, address, place, value, tys[i], false,
        )?;
    }
    Ok(())
}
