//! The fixed words of the printed text, by subject.

mod area;
mod conversion;
mod definition;
mod enums;
mod export;
mod expr;
mod flags;
mod import;
mod item;
mod lift;
mod macros;
mod matches;
mod runtime;
mod sign;
mod slot;

pub(crate) use area::AreaWord;
pub(crate) use conversion::ConversionWord;
pub(crate) use definition::DefinitionWord;
pub(crate) use enums::EnumWord;
pub(crate) use export::ExportWord;
pub(crate) use expr::ExprWord;
pub(crate) use flags::FlagsWord;
pub(crate) use import::ImportWord;
pub(crate) use item::ItemWord;
pub(crate) use lift::LiftWord;
pub(crate) use macros::MacroWord;
pub(crate) use matches::MatchWord;
pub(crate) use runtime::RuntimeWord;
pub(crate) use sign::Sign;
pub(crate) use slot::SlotWord;
