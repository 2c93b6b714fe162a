//! Code that puts a value into memory and frees one, which `call` makes by inner functions.

ghost use Rattle.std.specs.Prelude.{◌≡◌, ◌<◌, [], length, Some, IfOk, OnOk};
ghost use Rattle.wit_model.specs.WellFormed.{IsWellFormed};
ghost use Rattle.wit_model.specs.declared.types.WitType.TheVariants.{Id};
ghost use Rattle.wrapper_meaning.specs.Shape.{shape_at};
ghost use Rattle.abi_bindgen.specs.Served.{Serves};
ghost use Rattle.abi_bindgen.specs.WordCount.{word_count};
ghost use Rattle.func_gen.specs.Opened.{open_blocks};

use crate::bodies::code::{fresh, import_parts, variant_tables};
use crate::bodies::trees::{import_tree, prints};
use crate::bodies::worlds::world_of_a_variant;
use abi_bindgen::{Instruction, send};
use abi_driver::{deallocate_lists_in_types, lower_to_memory};
use func_gen::{ExprOperand, FunctionBindgen};
use rust_tree::{Bindings, Expr};
use std::alloc::Global;
use std::test::Fail;
use wit_layout::flat_types;
use wit_model::{List, OutOfMemory, Resolve, Text, TypeId, WitType};

/// A local.
fn local(alloc: Global, name: &str) -> Result<ExprOperand, OutOfMemory> {
    let name = Text::from_str(alloc, name)?;
    Ok(ExprOperand {
        expr: Expr::Local(name),
        kept: false,
    })
}

/// The address and the length of a text.
fn words_of_a_text(alloc: Global) -> Result<List<ExprOperand>, OutOfMemory>
    ensures { IfOk result (λ words. length words ≡ 2) }
{
    let mut words = List::new(alloc);
    words.push(local(alloc, "p")?)?;
    words.push(local(alloc, "n")?)?;
    Ok(words)
}

/// The number of a case, and the two slots that its payload has.
fn three_words(alloc: Global) -> Result<List<ExprOperand>, OutOfMemory>
    ensures { IfOk result (λ words. length words ≡ 3) }
{
    let mut words = List::new(alloc);
    words.push(local(alloc, "t")?)?;
    words.push(local(alloc, "p")?)?;
    words.push(local(alloc, "n")?)?;
    Ok(words)
}

/// The code gives nothing.
fn give_nothing(
    alloc: Global,
    resolve: &Resolve,
    bindgen: &mut FunctionBindgen<'_>,
) -> Result<(), OutOfMemory>
    ensures closed { OnOk result (open_blocks bindgen.new.opened ≡ open_blocks bindgen.old.opened) }
    ensures nothing { OnOk result (bindgen.new.returned ≡ Some []) }
{
    let none = List::new(alloc);
    send(alloc, resolve, bindgen, Instruction::Return(0), none)?;
    Ok(())
}

/// The tree of the code that stores a number.
#[tactic(auto, unfolding(wit_model::specs::TypeOrder::type_below))]
fn stored(alloc: Global, resolve: &Resolve) -> Result<Bindings, Fail>
    requires { IsWellFormed resolve.now }
{
    let tables = variant_tables(alloc, resolve)?;
    let parts = import_parts(alloc, resolve, &tables)?;
    let mut bindgen = fresh(alloc, true, parts)?;
    let address = local(alloc, "a")?;
    let value = local(alloc, "x")?;
    let ty = WitType::U32;
    lower_to_memory(alloc, resolve, &mut bindgen, address, value, &ty, false)?;
    give_nothing(alloc, resolve, &mut bindgen)?;
    import_tree(alloc, bindgen.finish())
}

/// The tree of the code that frees a text.
#[tactic(auto, unfolding(wit_model::specs::TypeOrder::type_below))]
fn freed(alloc: Global, resolve: &Resolve) -> Result<Bindings, Fail>
    requires { IsWellFormed resolve.now }
{
    let tables = variant_tables(alloc, resolve)?;
    let parts = import_parts(alloc, resolve, &tables)?;
    let mut bindgen = fresh(alloc, true, parts)?;
    let words = words_of_a_text(alloc)?;
    let types = &[WitType::String];
    deallocate_lists_in_types(alloc, resolve, types, &words, false, &mut bindgen)?;
    give_nothing(alloc, resolve, &mut bindgen)?;
    import_tree(alloc, bindgen.finish())
}

/// The tree of the code that frees a type of three words.
#[tactic(auto, unfolding(wit_model::specs::TypeOrder::type_below))]
fn three_words_freed(alloc: Global, resolve: &Resolve) -> Result<Bindings, Fail>
    requires well { IsWellFormed resolve.now }
    requires some { 0 < length resolve.now.types }
    requires serves { Serves (shape_at resolve.now.types 0) }
    requires three { word_count resolve.now.types (Id (record { 0 = 0 })) ≡ 3 }
{
    let tables = variant_tables(alloc, resolve)?;
    let parts = import_parts(alloc, resolve, &tables)?;
    let mut bindgen = fresh(alloc, true, parts)?;
    let words = three_words(alloc)?;
    let types = &[WitType::Id(TypeId(0))];
    deallocate_lists_in_types(alloc, resolve, types, &words, false, &mut bindgen)?;
    give_nothing(alloc, resolve, &mut bindgen)?;
    import_tree(alloc, bindgen.finish())
}

/// The tree of the code that frees a variant by its words.
#[tactic(auto, unfolding(wit_model::specs::TypeOrder::type_below))]
fn variant_freed(alloc: Global, resolve: &Resolve) -> Result<Bindings, Fail>
    requires well { IsWellFormed resolve.now }
    requires some { 0 < length resolve.now.types }
    requires serves { Serves (shape_at resolve.now.types 0) }
{
    let flat = flat_types(resolve, &WitType::Id(TypeId(0)));
    if flat.more {
        return Err(Fail::new("the type has more words"));
    }
    if flat.count == 3 {
        return three_words_freed(alloc, resolve);
    }
    Err(Fail::new("the type has other words"))
}

#[test]
fn a_number_is_stored(rt: HostRuntime) -> Result<(), Fail> {
    let resolve = world_of_a_variant(rt.alloc())?;
    let tree = stored(rt.alloc(), &resolve)?;
    let code = "unsafe {\n*a.add(0).cast::<i32>() = _rt::as_i32(x);\n}\n";
    assert!(rt; prints(rt.alloc(), &tree, code)?);
    Ok(())
}

#[test]
fn a_text_is_freed(rt: HostRuntime) -> Result<(), Fail> {
    let resolve = world_of_a_variant(rt.alloc())?;
    let tree = freed(rt.alloc(), &resolve)?;
    let code = "unsafe {\n_rt::cabi_dealloc(p, n, 1);\n}\n";
    assert!(rt; prints(rt.alloc(), &tree, code)?);
    Ok(())
}

/// The numbers own no block. The address of the text is read from the slot that it shares with them.
const FREED: &str =
    "unsafe {\nmatch t {\n0 => {\n},\n1 => {\n},\n_ => {\n_rt::cabi_dealloc((p).as_ptr().cast::<*mut u8>().read(), n, 1);\n},\n}\n}\n";

#[test]
fn a_variant_is_freed_by_its_words(rt: HostRuntime) -> Result<(), Fail> {
    let resolve = world_of_a_variant(rt.alloc())?;
    let tree = variant_freed(rt.alloc(), &resolve)?;
    assert!(rt; prints(rt.alloc(), &tree, FREED)?);
    Ok(())
}
