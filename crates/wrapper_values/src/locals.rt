//! What a name stands for in a state.

ghost use Rattle.std.specs.Prelude.{◌≡◌, IfOk, OnOk};
ghost use Rattle.std.specs.Option.{option_copied};
ghost use Rattle.wrapper_values.specs.Act.{Runs};
ghost use Rattle.wrapper_values.specs.Locals as spec;

use crate::owning::View;
use crate::state::{Halt, Local, State, Val};
use rust_tree::ImportDecl;
use std::alloc::Global;
use std::mem;
use wit_model::{List, OutOfMemory, Text};
use wrapper_data::{Stop, Word};

/// The newest local of a name, if there is one.
pub fn local_named<'a>(locals: &'a [Local], name: &str) -> Option<&'a Local>
    ensures { option_copied result ≡ spec.local_named name.now locals.now }
{
    let mut found = None;
    for each in locals {
        if each.name.as_str() == name {
            found = Some(each);
        }
    }
    found
}

/// The newest declared core import of a name, if there is one.
pub fn import_named<'a>(imports: &'a [ImportDecl], name: &str) -> Option<&'a ImportDecl>
    ensures { option_copied result ≡ spec.import_named name.now imports.now }
{
    let mut found = None;
    for each in imports {
        if each.name.as_str() == name {
            found = Some(each);
        }
    }
    found
}

/// The value of a local, if it is there and was not moved.
pub fn value_named<'a>(state: &'a State, name: &Text) -> Option<&'a Val>
    ensures { option_copied result ≡ spec.value_of (spec.local_named name.now state.now.locals) }
{
    match local_named(state.locals.as_slice(), name.as_str()) {
        None => None,
        Some(l) => l.value.as_ref(),
    }
}

/// Gives the newest local of a name another value, or takes it away.
#[tactic(auto, using(crate::proofs::ChangedLemmas::changed_last, crate::proofs::ChangedLemmas::changed_other))]
fn change(locals: &mut Vec<Local>, name: &str, value: Option<Val>) -> Result<(), OutOfMemory>
    ensures { OnOk result (locals.new.items ≡ spec.changed value name.now locals.old.items) }
{
    match locals.pop() {
        None => Ok(()),
        Some(l) => {
            if l.name.as_str() == name {
                locals.push(Local {
                    name: l.name,
                    value,
                })?;
            } else {
                change(locals, name, value)?;
                locals.push(l)?;
            }
            Ok(())
        }
    }
}

fn change_local(
    alloc: Global,
    state: &mut State,
    name: &Text,
    value: Option<Val>,
) -> Result<(), OutOfMemory>
    ensures { OnOk result
        (state.new ≡ record state.old { locals = spec.changed value name.now state.old.locals }) }
{
    let mut locals = mem::replace(&mut state.locals, List::new(alloc)).into_vec();
    change(&mut locals, name.as_str(), value)?;
    state.locals = List::from_vec(locals);
    Ok(())
}

/// The value of a local that is used: one that owns a block is moved. Stopped by `stuck` where no local of the name has a
/// value, or where it has a return area, which is no value; and out of memory where there is none for a copy.
#[tactic(auto, unfolding(crate::specs::Locals::use_local))]
pub fn use_local(alloc: Global, stuck: Stop, state: &mut State, name: &Text) -> Result<Val, Halt>
    ensures { Runs (spec.use_local stuck name.now state.old) result state.new }
{
    let value = match value_named(state, name) {
        None | Some(Val::Area(_, _)) => return Err(Halt::Stopped(stuck)),
        Some(value) => value.copy(alloc)?,
    };
    if !value.owned(alloc)?.as_slice().is_empty() {
        change_local(alloc, state, name, None)?;
    }
    Ok(value)
}

/// The value of a local behind a reference. Stopped by `stuck` where no local of the name has a value, or where it has a
/// return area; and out of memory where there is none for a copy.
#[tactic(auto, unfolding(crate::specs::Locals::lend_local))]
pub fn lend_local(alloc: Global, stuck: Stop, state: &State, name: &Text) -> Result<Val, Halt>
    ensures { Runs (spec.lend_local stuck name.now state.now) result state.now }
{
    match value_named(state, name) {
        None => Err(Halt::Stopped(stuck)),
        Some(value) => match value.lent(alloc)? {
            None => Err(Halt::Stopped(stuck)),
            Some(lent) => Ok(lent),
        },
    }
}

/// What a method tells of a local's value. Stopped by `stuck` where no local of the name has a value, or the method tells
/// nothing of it.
#[tactic(auto, unfolding(crate::specs::Locals::ask_local))]
pub fn ask_local(stuck: Stop, state: &State, view: View, name: &Text) -> Result<Val, Halt>
    ensures { Runs (spec.ask_local stuck view name.now state.now) result state.now }
{
    match value_named(state, name) {
        None => Err(Halt::Stopped(stuck)),
        Some(value) => match view.of(value) {
            None => Err(Halt::Stopped(stuck)),
            Some(w) => Ok(Val::Word(w)),
        },
    }
}

/// Makes a local of a name and a value, the newest. Out of memory where there is none for it.
#[tactic(auto, unfolding(crate::specs::Locals::bind))]
pub fn bind(alloc: Global, state: &mut State, name: &Text, value: Val) -> Result<(), Halt>
    ensures { Runs (spec.bind name.now value state.old) result state.new }
{
    let name = name.copy(alloc)?;
    state.locals.push(Local {
        name,
        value: Some(value),
    })?;
    Ok(())
}

/// Writes a pointer into the newest local of a name. Stopped by `stuck` where that holds no slot for a pointer or 64 bits, or
/// where what is written is no pointer; and out of memory where there is none for the change.
#[tactic(auto, unfolding(crate::specs::Locals::write_slot))]
pub fn write_slot(
    alloc: Global,
    stuck: Stop,
    state: &mut State,
    name: &Text,
    pointer: &Val,
) -> Result<(), Halt>
    ensures { Runs (spec.write_slot stuck name.now pointer.now state.old) result state.new }
{
    let address = match (pointer, value_named(state, name)) {
        (Val::Word(Word::Pointer(address)), Some(Val::Word(Word::Slot(_)))) => *address,
        _ => return Err(Halt::Stopped(stuck)),
    };
    let value = Val::Word(Word::Slot(Some(u64::from(address))));
    change_local(alloc, state, name, Some(value))?;
    Ok(())
}

fn copy_import(alloc: Global, d: &ImportDecl) -> Result<ImportDecl, OutOfMemory>
    ensures { IfOk result (λ copied. copied ≡ d.now) }
{
    Ok(ImportDecl {
        module: d.module.copy(alloc)?,
        link_name: d.link_name.copy(alloc)?,
        name: d.name.copy(alloc)?,
        params: List::from_slice(alloc, d.params.as_slice())?,
        result: d.result,
    })
}

/// Declares a core import, the newest. Out of memory where there is none for it.
#[tactic(auto, unfolding(crate::specs::Locals::declare))]
pub fn declare(alloc: Global, state: &mut State, d: &ImportDecl) -> Result<(), Halt>
    ensures { Runs (spec.declare d.now state.old) result state.new }
{
    let copied = copy_import(alloc, d)?;
    state.imports.push(copied)?;
    Ok(())
}
