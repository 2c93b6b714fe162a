//! What makes statements of instructions.

ghost use Rattle.std.specs.Prelude.{◌≡◌, ◌∷◌, true, not, IfOk};
ghost use Rattle.std.specs.List.{AllByRecursion};
ghost use Rattle.wit_model.specs.Distinct.{is_distinct};
ghost use Rattle.abi_bindgen.specs.Laws.{IsNew};
ghost use Rattle.func_gen.specs.Made.{IsMadeOf};
ghost use Rattle.func_gen.specs.Meaning.{func_meaning};
ghost use Rattle.func_gen.specs.Sites.{IsSite, site_names};
ghost use Rattle.func_gen.specs.TypeSites.{CanBeDefined};

use crate::operand::ExprOperand;
use crate::scope::Scope;
use crate::type_tables::TypeTables;
use abi_bindgen::Asked;
use local_names::Names;
use rust_tree::{CallBlock, RuntimeItem, Stmt};
use std::alloc::Global;
use std::marker::Model;
use wit_model::{List, OutOfMemory, Text};

/// A parameter of a wrapper: what denotes its value, and its name.
#[derive(Drop)]
pub struct ParamSite {
    /// What denotes its value: the name by itself, or a reference to it.
    pub operand: ExprOperand,
    /// Its name, an identifier.
    pub name: Text,
}

/// Code: of an export the block that calls the method, once it is called, and the statements behind it.
#[derive(Drop)]
pub struct Code {
    /// The block that calls the method, of an export's code behind the call.
    pub call: Option<CallBlock>,
    /// The statements that stand behind it.
    pub stmts: List<Stmt>,
}

/// An open block.
#[derive(Drop)]
pub struct OpenBlock {
    /// The number of its names.
    pub number: u32,
    /// The names that were used when it was opened.
    pub names: Names,
    /// The code that it suspends.
    pub code: Code,
}

/// A finished block.
#[derive(Drop)]
pub struct FinishedBlock {
    /// The number of its names.
    pub number: u32,
    /// The names that were used when it was opened.
    pub names: Names,
    /// Its statements.
    pub stmts: List<Stmt>,
    /// What it gives.
    pub results: List<ExprOperand>,
}

/// Makes statements of instructions, for the wrapper of an import or of an export.
#[derive(Drop)]
pub struct FunctionBindgen<'a> {
    pub(crate) alloc: Global,
    /// The layouts of the types; and by the number of a type, how it is written, where it has a site.
    pub(crate) tables: &'a TypeTables,
    /// Whether it makes code of an import; else of an export.
    pub(crate) import: bool,
    /// Where calls go: the module of the core imports, or the trait whose methods are called.
    pub(crate) home: Text,
    /// The local that holds an import's return area.
    pub(crate) area: Text,
    pub(crate) params: List<ParamSite>,
    pub(crate) scope: Scope,
    pub(crate) code: Code,
    /// The open blocks, the innermost last.
    pub(crate) opened: List<OpenBlock>,
    /// The finished blocks that no instruction used up, the last one last.
    pub(crate) finished: List<FinishedBlock>,
    /// The items of `_rt` that the code names.
    pub(crate) runtime: List<RuntimeItem>,
    /// The records for which the return area was asked for.
    pub(crate) asked: List<Asked>,
    /// What the code gives, once it was told.
    pub(crate) returned: Option<List<ExprOperand>>,
}

impl<'a> Model for FunctionBindgen<'a> {
    ghost use Rattle.std.specs.Coded.{codes};
    ghost use Rattle.rust_tree.specs.contracts.expr.Expr as expr_contract;
    ghost use Rattle.rust_tree.specs.contracts.stmt.Stmt as stmt_contract;
    ghost use Rattle.func_gen.specs.BindgenView.{BindgenView};

    ghost Value = { BindgenView };

    ghost coded = { Prim.hlevel (codes, expr_contract.the_row.coded, stmt_contract.the_row.coded) };

    ghost use Rattle.func_gen.specs.BindgenSeen.{seen_bindgen};

    ghost view = { seen_bindgen };

    ghost use Rattle.func_gen.specs.Whole.{IsWhole};

    ghost invariant = { λ b. IsWhole b.opened b.code b.asked b.scope.used b.finished };
}

/// The names that are used at first.
fn first_names(
    alloc: Global,
    area: &Text,
    cleanup: &Text,
    params: &[ParamSite],
) -> Result<Names, OutOfMemory>
    ensures { IfOk result (λ names. names ≡ area.now ∷ cleanup.now ∷ site_names params.now) }
{
    let mut names = Names::new(alloc);
    names.push(alloc, area.as_str())?;
    names.push(alloc, cleanup.as_str())?;
    for site in params {
        names.push(alloc, site.name.as_str())?;
    }
    Ok(names)
}

impl<'a> FunctionBindgen<'a> {
    /// One without code, for a wrapper of these parameters, of an import or of an export. Core imports that are called are of the module
    /// `home`, and methods of the trait of that name. The area is the local that holds an import's return area, and the cleanup the
    /// one that holds the lists to be freed: no local that is numbered gets either name.
    pub fn new(
        alloc: Global,
        tables: &'a TypeTables,
        import: bool,
        home: Text,
        area: Text,
        cleanup: Text,
        params: List<ParamSite>,
    ) -> Result<FunctionBindgen<'a>, OutOfMemory>
        requires sites { AllByRecursion IsSite params }
        requires defined { CanBeDefined tables.now.sites }
        requires distinct { is_distinct (area ∷ site_names params) ≡ true }
        ensures made { IfOk result (IsMadeOf tables.now import home area cleanup params) }
        ensures begins { IfOk result (λ b. IsNew func_meaning b) }
        ensures imports { IfOk result (λ b. func_meaning.imports b ≡ import) }
        ensures exports { IfOk result (λ b. func_meaning.exports b ≡ not import) }
    {
        let used = first_names(alloc, &area, &cleanup, params.as_slice())?;
        Ok(FunctionBindgen {
            alloc,
            tables,
            import,
            home,
            area,
            params,
            scope: Scope { used, next: 0 },
            code: Code {
                call: None,
                stmts: List::new(alloc),
            },
            opened: List::new(alloc),
            finished: List::new(alloc),
            runtime: List::new(alloc),
            asked: List::new(alloc),
            returned: None,
        })
    }
}
