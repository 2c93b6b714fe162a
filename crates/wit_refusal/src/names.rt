//! Numbers of rules, and words for tables.

ghost use Rattle.std.specs.Prelude.{◌≡◌};
ghost use Rattle.wit_refusal.specs.Names.{rule_number_of, table_text};

use wit_model::{Rule, Table};

/// The number of a rule: its place among the rules, counted from 1.
pub(crate) fn rule_number(rule: Rule) -> u64
    ensures { result ≡ rule_number_of rule }
{
    match rule {
        Rule::IndexRange => 1,
        Rule::TypeOrder => 2,
        Rule::Members => 3,
        Rule::MapKey => 4,
        Rule::HandleTarget => 5,
        Rule::BorrowPlace => 6,
        Rule::SelfParam => 7,
        Rule::Constructor => 8,
        Rule::MissingName => 9,
        Rule::Owner => 10,
        Rule::Listing => 11,
        Rule::UnknownKind => 12,
        Rule::NameText => 13,
    }
}

/// What the entries of a table are.
pub(crate) fn table_name(table: Table) -> &'static str
    ensures { result.now ≡ table_text table }
{
    match table {
        Table::Package => "package",
        Table::Interface => "interface",
        Table::Type_ => "type",
        Table::World => "world",
    }
}
