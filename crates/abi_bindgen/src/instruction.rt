//! The instructions by which values are passed between Rust and core WebAssembly.

use wit_layout::Bitcast;
use wit_model::{Alignment, ArchitectureSize, Function, Handle, TypeId, WasmType, WitType};

/// What a `Bindgen` makes code of, after the instructions of wit-bindgen-core.
///
/// A `bool` says whether values are given away, and lent otherwise. A `WitType` is an element, or a key and then a value. An
/// `ArchitectureSize` of a load or a store is its offset. A `u32` is the argument's number in `GetArg`, the count of
/// operands in `Flush` and `Return`, of parts in `TupleLower` and `TupleLift`, of results in `VariantLower`,
/// `OptionLower` and `ResultLower`, of blocks in `GuestDeallocateVariant`, and the length in the fixed-length forms.
#[derive(Clone, Copy)]
pub enum Instruction<'a> {
    GetArg(u32),
    I32Const(i32),
    ConstZero(&'a [WasmType]),
    Bitcasts(&'a [Bitcast]),

    I32FromBool,
    I32FromU8,
    I32FromS8,
    I32FromU16,
    I32FromS16,
    I32FromU32,
    I32FromS32,
    I32FromChar,
    I64FromU64,
    I64FromS64,
    CoreF32FromF32,
    CoreF64FromF64,

    BoolFromI32,
    U8FromI32,
    S8FromI32,
    U16FromI32,
    S16FromI32,
    U32FromI32,
    S32FromI32,
    CharFromI32,
    U64FromI64,
    S64FromI64,
    F32FromCoreF32,
    F64FromCoreF64,

    FlagsLower(TypeId),
    FlagsLift(TypeId),
    HandleLower(Handle),
    HandleLift(Handle),
    RecordLower(TypeId),
    RecordLift(TypeId),
    TupleLower(u32),
    TupleLift(u32),

    VariantPayloadName,
    IterElem,
    IterMapKey,
    IterMapValue,
    IterBasePointer,

    VariantLower(TypeId, u32),
    OptionLower(TypeId, u32),
    ResultLower(TypeId, u32),
    EnumLower(TypeId),
    VariantLift(TypeId),
    OptionLift(TypeId),
    ResultLift(TypeId),
    EnumLift(TypeId),

    ListCanonLower(WitType, bool),
    ListCanonLift(WitType),
    StringLower(bool),
    StringLift,
    ListLower(WitType, bool),
    ListLift(WitType),
    MapLower(WitType, WitType, bool),
    MapLift(WitType, WitType),
    FixedLengthListLower(WitType, u32),
    FixedLengthListLift(WitType, u32),
    FixedLengthListLowerToMemory(WitType, u32),
    FixedLengthListLiftFromMemory(WitType, u32),

    CallWasm(&'a Function),
    CallInterface(&'a Function),
    Flush(u32),
    Return(u32),

    I32Load8U(ArchitectureSize),
    I32Load8S(ArchitectureSize),
    I32Load16U(ArchitectureSize),
    I32Load16S(ArchitectureSize),
    I32Load(ArchitectureSize),
    I64Load(ArchitectureSize),
    F32Load(ArchitectureSize),
    F64Load(ArchitectureSize),
    PointerLoad(ArchitectureSize),
    LengthLoad(ArchitectureSize),

    I32Store8(ArchitectureSize),
    I32Store16(ArchitectureSize),
    I32Store(ArchitectureSize),
    I64Store(ArchitectureSize),
    F32Store(ArchitectureSize),
    F64Store(ArchitectureSize),
    PointerStore(ArchitectureSize),
    LengthStore(ArchitectureSize),

    GuestDeallocate(ArchitectureSize, Alignment),
    GuestDeallocateString,
    GuestDeallocateVariant(u32),
    GuestDeallocateList(WitType),
    GuestDeallocateMap(WitType, WitType),
    GuestDeallocateFixed(WitType, u32),
}
