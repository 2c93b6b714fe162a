//! The text of the trait of exports.

ghost use Rattle.std.specs.Prelude.{◌≡◌, ◌++◌, OnOk};
ghost use Rattle.std.specs.List.{flat_map};
ghost use Rattle.rust_tree.specs.Text.{trait_fn_text, trait_text};

use crate::print::function::{push_docs, push_signature};
use crate::print::word::{ItemWord, Sign};
use crate::trait_item::{TraitFn, TraitItem};
use wit_model::{OutOfMemory, Text};

fn push_trait_fn(out: &mut Text, function: &TraitFn) -> Result<(), OutOfMemory>
    ensures { OnOk result (out.new ≡ out.old ++ trait_fn_text function.now) }
{
    push_docs(out, function.docs.as_slice())?;
    ItemWord::Method.put(out)?;
    push_signature(
        out,
        &function.name,
        function.params.as_slice(),
        &function.result,
    )?;
    Sign::StatementEnd.put(out)
}

fn push_trait_fns(out: &mut Text, functions: &[TraitFn]) -> Result<(), OutOfMemory>
    ensures { OnOk result (out.new ≡ out.old ++ flat_map trait_fn_text functions.now) }
{
    for function in functions {
        push_trait_fn(out, function)?;
    }
    Ok(())
}

pub(crate) fn push_trait(out: &mut Text, item: &TraitItem) -> Result<(), OutOfMemory>
    ensures { OnOk result (out.new ≡ out.old ++ trait_text item.now) }
{
    ItemWord::PublicTrait.put(out)?;
    out.push_str(item.name.as_str())?;
    Sign::OpenBlock.put(out)?;
    push_trait_fns(out, item.functions.as_slice())?;
    Sign::CloseBlock.put(out)
}
