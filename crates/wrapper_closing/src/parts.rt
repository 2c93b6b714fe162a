//! Of what the body of a wrapper is made.

ghost use Rattle.std.specs.Prelude.{◌≡◌, ◌∷◌, true, IfOk};
ghost use Rattle.std.specs.List.{AllByRecursion};
ghost use Rattle.wit_model.specs.Distinct.{is_distinct};
ghost use Rattle.abi_bindgen.specs.Laws.{IsNew};
ghost use Rattle.func_gen.specs.Meaning.{func_meaning};
ghost use Rattle.func_gen.specs.TypeSites.{CanBeDefined};
ghost use Rattle.func_gen.specs.Sites.{IsSite, site_names};
ghost use Rattle.wrapper_closing.specs.Parts.{IsMadeFrom};

use func_gen::{FunctionBindgen, ParamSite, TypeTables};
use std::alloc::Global;
use wit_model::{List, OutOfMemory, Text};

/// Of what the body of a wrapper is made, beside its function.
#[derive(Drop)]
pub struct BodyParts<'a> {
    /// The layouts of the types of the table, and how they are written.
    pub tables: &'a TypeTables,
    /// Where calls go: the module of the core imports, or the trait whose methods are called.
    pub home: Text,
    /// The local that holds an import's return area.
    pub area: Text,
    /// The local that holds the lists to be freed.
    pub cleanup: Text,
    /// The wrapper's parameters.
    pub params: List<ParamSite>,
}

/// A bindgen without code, of an import or of an export.
pub(crate) fn begin<'a>(
    alloc: Global,
    import: bool,
    parts: BodyParts<'a>,
) -> Result<FunctionBindgen<'a>, OutOfMemory>
    requires sites { AllByRecursion IsSite parts.params }
    requires defined { CanBeDefined parts.tables.now.sites }
    requires distinct { is_distinct (parts.area ∷ site_names parts.params) ≡ true }
    ensures made { IfOk result (IsMadeFrom import parts.entry) }
    ensures begins { IfOk result (λ b. IsNew func_meaning b) }
{
    let BodyParts {
        tables,
        home,
        area,
        cleanup,
        params,
    } = parts;
    FunctionBindgen::new(alloc, tables, import, home, area, cleanup, params)
}
