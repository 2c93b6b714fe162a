//! The text of a path.

ghost use Rattle.std.specs.Prelude.{◌≡◌, ◌++◌, OnOk};
ghost use Rattle.std.specs.List.{join_by};
ghost use Rattle.rust_tree.specs.CodeText.{lead_text, path_text, supers_text};
ghost use Rattle.rust_tree.specs.Word.{sign};
ghost use Rattle.rust_tree.specs.declared.print.word.sign.Sign.TheVariants.{PathMark};

use crate::path::Path;
use crate::print::word::Sign;
use wit_model::{OutOfMemory, Text};

fn push_lead(out: &mut Text, lead: bool) -> Result<(), OutOfMemory>
    ensures { OnOk result (out.new ≡ out.old ++ lead_text lead) }
{
    if lead {
        Sign::PathMark.put(out)?;
    }
    Ok(())
}

fn push_supers(out: &mut Text, supers: u32) -> Result<(), OutOfMemory>
    ensures { OnOk result (out.new ≡ out.old ++ supers_text supers) }
{
    for _i in 0..supers {
        Sign::Super.put(out)?;
    }
    Ok(())
}

fn push_names(out: &mut Text, names: &[Text]) -> Result<(), OutOfMemory>
    ensures { OnOk result (out.new ≡ out.old ++ join_by (λ name. name) (sign PathMark) names.now) }
{
    for (i, name) in names.iter().enumerate() {
        if i > 0 {
            Sign::PathMark.put(out)?;
        }
        out.push_str(name.as_str())?;
    }
    Ok(())
}

pub(crate) fn push_path(out: &mut Text, path: &Path) -> Result<(), OutOfMemory>
    ensures { OnOk result (out.new ≡ out.old ++ path_text path.now) }
{
    push_lead(out, path.lead)?;
    push_supers(out, path.supers)?;
    push_names(out, path.names.as_slice())
}
