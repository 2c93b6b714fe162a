//! The module `_rt`.

ghost use Rattle.std.specs.Prelude.{◌≡◌, ◌++◌, OnOk};
ghost use Rattle.std.specs.List.{flat_map};
ghost use Rattle.rust_tree.specs.RuntimeText.{alloc_use_text, dealloc_text, lift_text, runtime_item_text};
ghost use Rattle.rust_tree.specs.Runtime.{item_name};
ghost use Rattle.rust_tree.specs.Text.{runtime_text};
ghost use Rattle.rust_tree.specs.Word.{lift_word, runtime_word, sign};
ghost use Rattle.rust_tree.specs.declared.print.word.runtime.RuntimeWord.TheVariants.{ExternCrate};
ghost use Rattle.rust_tree.specs.declared.print.word.sign.Sign.TheVariants.{StatementEnd};
ghost use Rattle.rust_tree.specs.declared.runtime_item.RuntimeItem.TheVariants.{AllocCrate};

use crate::print::conversion::push_conversion;
use crate::print::word::{LiftWord, RuntimeWord, Sign};
use crate::runtime_item::RuntimeItem;
use wit_model::{OutOfMemory, Text};

const I32_SOURCES: [&str; 8] = ["i32", "u32", "i16", "u16", "i8", "u8", "char", "usize"];

const I64_SOURCES: [&str; 2] = ["i64", "u64"];

const F32_SOURCES: [&str; 1] = ["f32"];

const F64_SOURCES: [&str; 1] = ["f64"];

fn push_alloc_crate(out: &mut Text) -> Result<(), OutOfMemory>
    ensures { OnOk result (out.new ≡ out.old ++ (runtime_word ExternCrate ++ item_name AllocCrate ++ sign StatementEnd)) }
{
    RuntimeWord::ExternCrate.put(out)?;
    out.push_str(RuntimeItem::AllocCrate.name())?;
    Sign::StatementEnd.put(out)
}

#[tactic(auto, unfolding(crate::specs::RuntimeText::alloc_use_text))]
fn push_alloc_use(out: &mut Text, item: RuntimeItem, path: &str) -> Result<(), OutOfMemory>
    ensures { OnOk result (out.new ≡ out.old ++ alloc_use_text item path.now) }
{
    RuntimeWord::PublicUse.put(out)?;
    out.push_str(RuntimeItem::AllocCrate.name())?;
    Sign::PathMark.put(out)?;
    out.push_str(path)?;
    out.push_str(item.name())?;
    Sign::StatementEnd.put(out)
}

#[tactic(auto, unfolding(crate::specs::RuntimeText::lift_text))]
fn push_lift(
    out: &mut Text,
    item: RuntimeItem,
    signature: LiftWord,
    checked: LiftWord,
    unchecked: LiftWord,
) -> Result<(), OutOfMemory>
    ensures { OnOk result (out.new ≡ out.old ++ lift_text item (lift_word signature) (lift_word checked) (lift_word unchecked)) }
{
    RuntimeWord::UnsafeFn.put(out)?;
    out.push_str(item.name())?;
    signature.put(out)?;
    LiftWord::IfDebug.put(out)?;
    checked.put(out)?;
    LiftWord::Otherwise.put(out)?;
    unchecked.put(out)?;
    LiftWord::LiftEnd.put(out)
}

#[tactic(auto, unfolding(crate::specs::RuntimeText::dealloc_text))]
fn push_dealloc(out: &mut Text) -> Result<(), OutOfMemory>
    ensures { OnOk result (out.new ≡ out.old ++ dealloc_text) }
{
    RuntimeWord::UnsafeFn.put(out)?;
    out.push_str(RuntimeItem::CabiDealloc.name())?;
    RuntimeWord::DeallocParams.put(out)?;
    out.push_str(RuntimeItem::StdAllocModule.name())?;
    RuntimeWord::MakeLayout.put(out)?;
    out.push_str(RuntimeItem::StdAllocModule.name())?;
    RuntimeWord::Dealloc.put(out)
}

fn push_runtime_item(out: &mut Text, item: RuntimeItem) -> Result<(), OutOfMemory>
    ensures { OnOk result (out.new ≡ out.old ++ runtime_item_text item) }
{
    match item {
        RuntimeItem::AsI32 => push_conversion(out, item, "AsI32", "i32", &I32_SOURCES),
        RuntimeItem::AsI64 => push_conversion(out, item, "AsI64", "i64", &I64_SOURCES),
        RuntimeItem::AsF32 => push_conversion(out, item, "AsF32", "f32", &F32_SOURCES),
        RuntimeItem::AsF64 => push_conversion(out, item, "AsF64", "f64", &F64_SOURCES),
        RuntimeItem::AllocCrate => push_alloc_crate(out),
        RuntimeItem::StringType => push_alloc_use(out, item, "string::"),
        RuntimeItem::VecType => push_alloc_use(out, item, "vec::"),
        RuntimeItem::BoolLift => push_lift(
            out,
            item,
            LiftWord::BoolLiftType,
            LiftWord::CheckedBool,
            LiftWord::UncheckedBool,
        ),
        RuntimeItem::CharLift => push_lift(
            out,
            item,
            LiftWord::CharLiftType,
            LiftWord::CheckedChar,
            LiftWord::UncheckedChar,
        ),
        RuntimeItem::StringLift => push_lift(
            out,
            item,
            LiftWord::StringLiftType,
            LiftWord::CheckedString,
            LiftWord::UncheckedString,
        ),
        RuntimeItem::StdAllocModule => push_alloc_use(out, item, ""),
        RuntimeItem::CabiDealloc => push_dealloc(out),
        RuntimeItem::InvalidEnumDiscriminant => push_lift(
            out,
            item,
            LiftWord::NoCaseType,
            LiftWord::CheckedNoCase,
            LiftWord::UncheckedNoCase,
        ),
    }
}

fn push_runtime_items(out: &mut Text, items: &[RuntimeItem]) -> Result<(), OutOfMemory>
    ensures { OnOk result (out.new ≡ out.old ++ flat_map runtime_item_text items.now) }
{
    for item in items {
        push_runtime_item(out, *item)?;
    }
    Ok(())
}

pub(crate) fn push_runtime(out: &mut Text, items: &[RuntimeItem]) -> Result<(), OutOfMemory>
    ensures { OnOk result (out.new ≡ out.old ++ runtime_text items.now) }
{
    RuntimeWord::RuntimeModule.put(out)?;
    push_runtime_items(out, items)?;
    Sign::CloseBlock.put(out)
}
