//! The wrapper of an exported function, and its post-return function.

ghost use Rattle.std.specs.Prelude.{◌≡◌, ◌++◌, OnOk};
ghost use Rattle.rust_tree.specs.ExportText.{call_block_text, call_head_text, export_head_text, export_text, method_call_text, post_return_head_text, post_return_text};

use crate::export::{CallBlock, ExportFn, PostReturnFn};
use crate::print::expr::push_arguments;
use crate::print::named_param::push_named_signature;
use crate::print::stmt::{push_block, push_stmts};
use crate::print::word::{ExportWord, ItemWord, Sign};
use wit_model::{OutOfMemory, Text};

#[tactic(auto, unfolding(crate::specs::ExportText::export_head_text))]
fn push_export_head(out: &mut Text, function: &ExportFn) -> Result<(), OutOfMemory>
    ensures { OnOk result (out.new ≡ out.old ++ export_head_text function.now) }
{
    ExportWord::WrapperFn.put(out)?;
    out.push_str(function.base.as_str())?;
    ExportWord::Bound.put(out)?;
    out.push_str(function.bound.as_str())?;
    ExportWord::BoundEnd.put(out)?;
    push_named_signature(out, function.params.as_slice(), function.result)?;
    ItemWord::OpenUnsafe.put(out)
}

fn push_call_head(out: &mut Text, local: &Option<Text>) -> Result<(), OutOfMemory>
    ensures { OnOk result (out.new ≡ out.old ++ call_head_text local.now) }
{
    match local {
        None => ExportWord::PlainBlock.put(out),
        Some(name) => {
            Sign::Let.put(out)?;
            out.push_str(name.as_str())?;
            ExportWord::BoundBlock.put(out)
        }
    }
}

fn push_method_call(out: &mut Text, call: &CallBlock) -> Result<(), OutOfMemory>
    ensures { OnOk result (out.new ≡ out.old ++ method_call_text call.now) }
{
    ExportWord::Implementation.put(out)?;
    out.push_str(call.method.as_str())?;
    push_arguments(out, call.arguments.as_slice())
}

#[tactic(auto, unfolding(crate::specs::ExportText::call_block_text))]
fn push_call_block(out: &mut Text, call: &CallBlock) -> Result<(), OutOfMemory>
    ensures { OnOk result (out.new ≡ out.old ++ call_block_text call.now) }
{
    push_call_head(out, &call.result)?;
    push_stmts(out, call.stmts.as_slice())?;
    push_method_call(out, call)?;
    ExportWord::CallBlockEnd.put(out)
}

pub(crate) fn push_export(out: &mut Text, function: &ExportFn) -> Result<(), OutOfMemory>
    ensures { OnOk result (out.new ≡ out.old ++ export_text function.now) }
{
    push_export_head(out, function)?;
    push_call_block(out, &function.call)?;
    push_block(out, &function.rest)?;
    Sign::CloseBlock.put(out)?;
    Sign::CloseBlock.put(out)
}

#[tactic(auto, unfolding(crate::specs::ExportText::post_return_head_text))]
fn push_post_return_head(out: &mut Text, function: &PostReturnFn) -> Result<(), OutOfMemory>
    ensures { OnOk result (out.new ≡ out.old ++ post_return_head_text function.now) }
{
    ExportWord::PostReturnFn.put(out)?;
    out.push_str(function.base.as_str())?;
    ExportWord::PostReturnBound.put(out)?;
    out.push_str(function.bound.as_str())?;
    ExportWord::BoundEnd.put(out)?;
    push_named_signature(out, function.params.as_slice(), None)?;
    ItemWord::OpenUnsafe.put(out)
}

pub(crate) fn push_post_return(out: &mut Text, function: &PostReturnFn) -> Result<(), OutOfMemory>
    ensures { OnOk result (out.new ≡ out.old ++ post_return_text function.now) }
{
    push_post_return_head(out, function)?;
    push_block(out, &function.body)?;
    Sign::CloseBlock.put(out)?;
    Sign::CloseBlock.put(out)
}
