//! How a type of the table is written.

use crate::enum_site::EnumSite;
use crate::flags_site::FlagsSite;
use crate::record_site::RecordSite;
use crate::variant_site::VariantSite;

/// A type of the table as the file writes it.
#[derive(Drop)]
pub enum TypeSite {
    Record(RecordSite),
    Enum(EnumSite),
    Flags(FlagsSite),
    Variant(VariantSite),
}
