//! The forms that are emitted.

ghost use Rattle.std.specs.Prelude.{◌≡◌, [], ◌∷◌, ◌++◌, IfOk, OnOk};
ghost use Rattle.rust_tree.specs.declared.expr.Expr.TheVariants as expr;
ghost use Rattle.func_gen.specs.Forms.{runtime_call, runtime_path};

use rust_tree::{Expr, Path, RuntimeItem};
use std::alloc::Global;
use wit_model::{List, OutOfMemory, Text};

/// Puts a name behind the others of a path.
pub(crate) fn push_name(
    alloc: Global,
    names: &mut List<Text>,
    name: &str,
) -> Result<(), OutOfMemory>
    ensures { OnOk result (names.new ≡ names.old ++ name.now ∷ []) }
{
    names.push(Text::from_str(alloc, name)?)
}

/// The one argument of a call.
pub(crate) fn argument_of(alloc: Global, argument: Expr) -> Result<List<Expr>, OutOfMemory>
    ensures { IfOk result (λ es. es ≡ argument ∷ []) }
{
    let mut arguments = List::new(alloc);
    arguments.push(argument)?;
    Ok(arguments)
}

/// The call of what a path names, with one argument.
pub(crate) fn call_of(alloc: Global, path: Path, argument: Expr) -> Result<Expr, OutOfMemory>
    ensures { IfOk result (λ c. c ≡ expr.Call path (argument ∷ [])) }
{
    let arguments = argument_of(alloc, argument)?;
    Ok(Expr::Call(path, arguments))
}

#[tactic(auto, unfolding(crate::specs::Forms::runtime_name))]
pub(crate) fn runtime_path(alloc: Global, item: RuntimeItem) -> Result<Path, OutOfMemory>
    ensures { IfOk result (λ p. p ≡ runtime_path item) }
{
    let mut names = List::new(alloc);
    push_name(alloc, &mut names, "_rt")?;
    push_name(alloc, &mut names, item.name())?;
    Ok(Path {
        lead: false,
        supers: 0,
        names,
    })
}

/// The call of a function of `_rt`.
pub(crate) fn runtime_call(alloc: Global, item: RuntimeItem, e: Expr) -> Result<Expr, OutOfMemory>
    ensures { IfOk result (λ c. c ≡ runtime_call item e) }
{
    let arguments = argument_of(alloc, e)?;
    let path = runtime_path(alloc, item)?;
    Ok(Expr::Call(path, arguments))
}
