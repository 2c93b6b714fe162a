//! Where values stand in linear memory: sizes, alignments and offsets. Which core words they are as parameters and results:
//! flat types, joins of core types, casts between words, core signatures.
#![tactic(auto)]

mod ahead;
mod bitcast;
mod core_type;
mod fault;
mod flat;
mod flatten;
mod grain;
mod kind;
mod parts;
mod record;
mod running;
mod running_offset;
mod sequence;
mod signature;
mod size_align;
mod spread;
mod stored;
mod type_layout;
mod words;

pub use bitcast::{Bitcast, cast};
pub use core_type::join;
pub use fault::LayoutFault;
pub use flat::{Flat, flat_types};
pub use running_offset::RunningOffset;
pub use signature::{AbiVariant, WasmSignature, wasm_signature};
pub use size_align::SizeAlign;
