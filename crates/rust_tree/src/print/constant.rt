//! Constants of core values.

ghost use Rattle.std.specs.Prelude.{◌≡◌, ◌++◌, OnOk};
ghost use Rattle.rust_tree.specs.CodeText.{i32_text, minus_text, zero_text};

use crate::expr::ZeroType;
use crate::print::type_name::core_type_name;
use crate::print::word::Sign;
use wit_model::{OutOfMemory, Text, WasmType};

fn push_minus(out: &mut Text, negative: bool) -> Result<(), OutOfMemory>
    ensures { OnOk result (out.new ≡ out.old ++ minus_text negative) }
{
    if negative {
        Sign::Minus.put(out)?;
    }
    Ok(())
}

/// A number, and its type behind it.
pub(crate) fn push_i32(out: &mut Text, n: i32) -> Result<(), OutOfMemory>
    ensures { OnOk result (out.new ≡ out.old ++ i32_text n) }
{
    push_minus(out, n < 0)?;
    out.push_number(u64::from(n.unsigned_abs()))?;
    out.push_str(core_type_name(WasmType::I32))
}

pub(crate) fn zero_name(ty: ZeroType) -> &'static str
    ensures { result.now ≡ zero_text ty }
{
    match ty {
        ZeroType::I64 => "0i64",
        ZeroType::F32 => "0.0f32",
        ZeroType::F64 => "0.0f64",
        ZeroType::Pointer => "::core::ptr::null_mut::<u8>()",
        ZeroType::PointerOrI64 => "::core::mem::MaybeUninit::<u64>::zeroed()",
        ZeroType::Length => "0usize",
    }
}
