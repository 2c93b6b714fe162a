//! What a definition derives.

ghost use Rattle.std.specs.Prelude.{◌≡◌, ◌++◌, OnOk};
ghost use Rattle.std.specs.List.{join_by};
ghost use Rattle.rust_tree.specs.CodeText.{path_text};
ghost use Rattle.rust_tree.specs.Derives.{derives_text};
ghost use Rattle.rust_tree.specs.Word.{sign};
ghost use Rattle.rust_tree.specs.declared.print.word.sign.Sign.TheVariants.{Comma};

use crate::path::Path;
use crate::print::path::push_path;
use crate::print::word::{DefinitionWord, Sign};
use wit_model::{OutOfMemory, Text};

fn push_paths(out: &mut Text, paths: &[Path]) -> Result<(), OutOfMemory>
    ensures { OnOk result (out.new ≡ out.old ++ join_by path_text (sign Comma) paths.now) }
{
    for (i, path) in paths.iter().enumerate() {
        if i > 0 {
            Sign::Comma.put(out)?;
        }
        push_path(out, path)?;
    }
    Ok(())
}

pub(crate) fn push_derives(out: &mut Text, derives: &[Path]) -> Result<(), OutOfMemory>
    ensures { OnOk result (out.new ≡ out.old ++ derives_text derives.now) }
{
    if derives.is_empty() {
        return Ok(());
    }
    DefinitionWord::Derive.put(out)?;
    push_paths(out, derives)?;
    DefinitionWord::DeriveEnd.put(out)
}
