//! The runtime items that take a number to a core value: a function, its trait and the trait's implementations.

ghost use Rattle.std.specs.Prelude.{◌≡◌, ◌++◌, OnOk, map};
ghost use Rattle.std.specs.List.{flat_map};
ghost use Rattle.rust_tree.specs.RuntimeText.{conversion_fn_text, conversion_impl_text, conversion_method_text, conversion_text, conversion_trait_text, reference_impl_text};

use crate::print::word::{ConversionWord, ItemWord, Sign};
use crate::runtime_item::RuntimeItem;
use wit_model::{OutOfMemory, Text};

fn push_method(out: &mut Text, item: RuntimeItem, ty: &str) -> Result<(), OutOfMemory>
    ensures { OnOk result (out.new ≡ out.old ++ conversion_method_text item ty.now) }
{
    ItemWord::Method.put(out)?;
    out.push_str(item.name())?;
    ConversionWord::TakesSelf.put(out)?;
    out.push_str(ty)
}

#[tactic(auto, unfolding(crate::specs::RuntimeText::conversion_fn_text))]
fn push_conversion_fn(
    out: &mut Text,
    item: RuntimeItem,
    bound: &str,
    ty: &str,
) -> Result<(), OutOfMemory>
    ensures { OnOk result (out.new ≡ out.old ++ conversion_fn_text item bound.now ty.now) }
{
    ConversionWord::ConversionFn.put(out)?;
    out.push_str(item.name())?;
    ConversionWord::ConversionBound.put(out)?;
    out.push_str(bound)?;
    ConversionWord::ConversionParam.put(out)?;
    out.push_str(ty)?;
    Sign::OpenBlock.put(out)?;
    ConversionWord::ConvertParam.put(out)?;
    out.push_str(item.name())?;
    ConversionWord::CallEnd.put(out)?;
    Sign::CloseBlock.put(out)
}

#[tactic(auto, unfolding(crate::specs::RuntimeText::conversion_trait_text))]
fn push_conversion_trait(
    out: &mut Text,
    item: RuntimeItem,
    bound: &str,
    ty: &str,
) -> Result<(), OutOfMemory>
    ensures { OnOk result (out.new ≡ out.old ++ conversion_trait_text item bound.now ty.now) }
{
    ItemWord::PublicTrait.put(out)?;
    out.push_str(bound)?;
    Sign::OpenBlock.put(out)?;
    push_method(out, item, ty)?;
    Sign::StatementEnd.put(out)?;
    Sign::CloseBlock.put(out)
}

#[tactic(auto, unfolding(crate::specs::RuntimeText::reference_impl_text))]
fn push_reference_impl(
    out: &mut Text,
    item: RuntimeItem,
    bound: &str,
    ty: &str,
) -> Result<(), OutOfMemory>
    ensures { OnOk result (out.new ≡ out.old ++ reference_impl_text item bound.now ty.now) }
{
    ConversionWord::ReferenceBound.put(out)?;
    out.push_str(bound)?;
    ConversionWord::ReferenceTrait.put(out)?;
    out.push_str(bound)?;
    ConversionWord::ForReference.put(out)?;
    push_method(out, item, ty)?;
    Sign::OpenBlock.put(out)?;
    ConversionWord::ConvertTarget.put(out)?;
    out.push_str(item.name())?;
    ConversionWord::CallEnd.put(out)?;
    Sign::CloseBlock.put(out)?;
    Sign::CloseBlock.put(out)
}

#[tactic(auto, unfolding(crate::specs::RuntimeText::conversion_impl_text))]
fn push_conversion_impl(
    out: &mut Text,
    item: RuntimeItem,
    bound: &str,
    ty: &str,
    source: &str,
) -> Result<(), OutOfMemory>
    ensures { OnOk result (out.new ≡ out.old ++ conversion_impl_text item bound.now ty.now source.now) }
{
    ConversionWord::ConversionImpl.put(out)?;
    out.push_str(bound)?;
    ConversionWord::ImplFor.put(out)?;
    out.push_str(source)?;
    Sign::OpenBlock.put(out)?;
    ConversionWord::Inline.put(out)?;
    push_method(out, item, ty)?;
    Sign::OpenBlock.put(out)?;
    ConversionWord::CastSelf.put(out)?;
    out.push_str(ty)?;
    Sign::LineEnd.put(out)?;
    Sign::CloseBlock.put(out)?;
    Sign::CloseBlock.put(out)
}

fn push_conversion_impls(
    out: &mut Text,
    item: RuntimeItem,
    bound: &str,
    ty: &str,
    sources: &[&str],
) -> Result<(), OutOfMemory>
    ensures { OnOk result
        (out.new ≡ out.old ++ flat_map (conversion_impl_text item bound.now ty.now) (map (λ source. source.now) sources.now)) }
{
    for source in sources {
        push_conversion_impl(out, item, bound, ty, source)?;
    }
    Ok(())
}

#[tactic(auto, unfolding(crate::specs::RuntimeText::conversion_text))]
pub(crate) fn push_conversion(
    out: &mut Text,
    item: RuntimeItem,
    bound: &str,
    ty: &str,
    sources: &[&str],
) -> Result<(), OutOfMemory>
    ensures { OnOk result
        (out.new ≡ out.old ++ conversion_text item bound.now ty.now (map (λ source. source.now) sources.now)) }
{
    push_conversion_fn(out, item, bound, ty)?;
    push_conversion_trait(out, item, bound, ty)?;
    push_reference_impl(out, item, bound, ty)?;
    push_conversion_impls(out, item, bound, ty, sources)
}
