//! The text of a function, and of doc lines and parameters.

ghost use Rattle.std.specs.Prelude.{◌≡◌, ◌++◌, OnOk};
ghost use Rattle.std.specs.List.{flat_map, join_by};
ghost use Rattle.rust_tree.specs.CodeText.{doc_text};
ghost use Rattle.rust_tree.specs.Text.{fn_text, param_text, signature_text};
ghost use Rattle.rust_tree.specs.Word.{sign};
ghost use Rattle.rust_tree.specs.declared.print.word.sign.Sign.TheVariants.{Comma};

use crate::item::{FnItem, FnParam};
use crate::print::stmt::push_block;
use crate::print::type_name::push_type;
use crate::print::word::{ItemWord, Sign};
use crate::type_expr::TypeExpr;
use wit_model::{OutOfMemory, Text};

fn push_doc(out: &mut Text, line: &Text) -> Result<(), OutOfMemory>
    ensures { OnOk result (out.new ≡ out.old ++ doc_text line.now) }
{
    if line.as_str().is_empty() {
        ItemWord::EmptyDoc.put(out)
    } else {
        ItemWord::Doc.put(out)?;
        out.push_str(line.as_str())?;
        Sign::LineEnd.put(out)
    }
}

pub(crate) fn push_docs(out: &mut Text, docs: &[Text]) -> Result<(), OutOfMemory>
    ensures { OnOk result (out.new ≡ out.old ++ flat_map doc_text docs.now) }
{
    for line in docs {
        push_doc(out, line)?;
    }
    Ok(())
}

fn push_params(out: &mut Text, params: &[FnParam]) -> Result<(), OutOfMemory>
    ensures { OnOk result (out.new ≡ out.old ++ join_by param_text (sign Comma) params.now) }
{
    for (i, param) in params.iter().enumerate() {
        if i > 0 {
            Sign::Comma.put(out)?;
        }
        out.push_str(param.name.as_str())?;
        Sign::Colon.put(out)?;
        push_type(out, &param.ty)?;
    }
    Ok(())
}

pub(crate) fn push_signature(
    out: &mut Text,
    name: &Text,
    params: &[FnParam],
    result_type: &TypeExpr,
) -> Result<(), OutOfMemory>
    ensures { OnOk result (out.new ≡ out.old ++ signature_text name.now params.now result_type.now) }
{
    out.push_str(name.as_str())?;
    Sign::Open.put(out)?;
    push_params(out, params)?;
    Sign::Close.put(out)?;
    Sign::Arrow.put(out)?;
    push_type(out, result_type)
}

pub(crate) fn push_function(out: &mut Text, function: &FnItem) -> Result<(), OutOfMemory>
    ensures { OnOk result (out.new ≡ out.old ++ fn_text function.now) }
{
    push_docs(out, function.docs.as_slice())?;
    ItemWord::PublicFn.put(out)?;
    push_signature(
        out,
        &function.name,
        function.params.as_slice(),
        &function.result,
    )?;
    ItemWord::OpenUnsafe.put(out)?;
    push_block(out, &function.body)?;
    Sign::CloseBlock.put(out)?;
    Sign::CloseBlock.put(out)
}
