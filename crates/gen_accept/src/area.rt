//! Whether a function needs an area of memory, or a post-return function.

ghost use Rattle.std.specs.Prelude.{◌≡◌, IsTrue, map};
ghost use Rattle.std.specs.List.{list_any};
ghost use Rattle.wit_model.specs.IndexRange.{function_in_range};
ghost use Rattle.wit_model.specs.WellFormed.{IsWellFormed};
ghost use Rattle.gen_accept.specs.Area.{import_needs_area, needs_area, needs_area_on, needs_return};
ghost use Rattle.gen_accept.specs.InRange.{AreInRange};

use abi_bindgen::guest_export_needs_post_return;
use wit_layout::{AbiVariant, wasm_signature};
use wit_model::{Function, Resolve};

/// Whether the result of a function passes by an area: whether it is more than one core word.
pub fn needs_area(resolve: &Resolve, f: &Function) -> bool
    requires well { IsWellFormed resolve.now }
    requires within { IsTrue (function_in_range resolve.now f.now) }
    ensures { result ≡ needs_area resolve.now.types f.now }
{
    wasm_signature(resolve, AbiVariant::GuestExport, f).retptr
}

/// Whether an import passes its result by an area, or its parameters, which are more than sixteen core words then.
pub fn import_needs_area(resolve: &Resolve, f: &Function) -> bool
    requires well { IsWellFormed resolve.now }
    requires within { IsTrue (function_in_range resolve.now f.now) }
    ensures { result ≡ import_needs_area resolve.now.types f.now }
{
    let signature = wasm_signature(resolve, AbiVariant::GuestImport, f);
    signature.retptr || signature.indirect_params
}

/// Whether an export needs a post-return function: whether its result may have a text or a list.
pub fn needs_return(resolve: &Resolve, f: &Function) -> bool
    requires well { IsWellFormed resolve.now }
    requires within { IsTrue (function_in_range resolve.now f.now) }
    ensures { result ≡ needs_return resolve.now.types f.now }
{
    guest_export_needs_post_return(resolve, f)
}

fn needs_area_on(side: AbiVariant, resolve: &Resolve, f: &Function) -> bool
    requires well { IsWellFormed resolve.now }
    requires within { IsTrue (function_in_range resolve.now f.now) }
    ensures { result ≡ needs_area_on side resolve.now.types f.now }
{
    match side {
        AbiVariant::GuestImport => import_needs_area(resolve, f),
        AbiVariant::GuestExport => needs_area(resolve, f),
    }
}

/// Whether one of these functions needs an area, which stand on one side.
pub(crate) fn any_needs_area(side: AbiVariant, resolve: &Resolve, functions: &[&Function]) -> bool
    requires well { IsWellFormed resolve.now }
    requires within { AreInRange resolve.now (map (λ f. f.now) functions.now) }
    ensures { result ≡ list_any (needs_area_on side resolve.now.types) (map (λ f. f.now) functions.now) }
{
    for function in functions {
        if needs_area_on(side, resolve, function) {
            return true;
        }
    }
    false
}
