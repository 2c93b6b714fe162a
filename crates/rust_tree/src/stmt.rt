//! Statements and blocks of wrappers.

use crate::area::ReturnArea;
use crate::expr::{Expr, SmallType};
use crate::pattern::{ArmPattern, Pattern};
use wit_model::{ArchitectureSize, List, Text, WasmType};

/// The declaration of a core import, in its form for WebAssembly and in its form for every other target.
#[derive(Debug, PartialEq)]
pub struct ImportDecl {
    /// The core import module.
    pub module: Text,
    /// The name of the import in that module.
    pub link_name: Text,
    /// The local name of the declared function.
    pub name: Text,
    /// The core parameters' types, in order.
    pub params: List<WasmType>,
    /// The core result's type, if there is one.
    pub result: Option<WasmType>,
}

// Not derived: what is derived stands again in each function that lets such a value go, and is proved with it.
impl Drop for ImportDecl {
    fn drop(self) {
        let ImportDecl {
            module: _,
            link_name: _,
            name: _,
            params: _,
            result: _,
        } = self;
    }
}

/// The names of what the arms of a `match` give.
#[derive(Debug, PartialEq)]
pub enum MatchNames {
    /// None, where they give nothing.
    Nothing,
    /// One name: `let x = `.
    One(Text),
    /// A name for each part of a tuple: `let (x, y, ) = `.
    Parts(List<Text>),
}

impl Drop for MatchNames {
    fn drop(self) {
        match self {
            MatchNames::Nothing | MatchNames::One(_) | MatchNames::Parts(_) => {}
        }
    }
}

/// A statement.
#[cycle(stmt)]
#[derive(Debug, PartialEq)]
pub enum Stmt {
    /// The declaration of a core import.
    Import(ImportDecl),
    /// `let x = e;`
    Let(Text, Expr),
    /// `e;`
    Expr(Expr),
    /// The declaration of a return area.
    Area(ReturnArea),
    /// A core value put into memory, at an offset from an address: `*e.add(8).cast::<T>() = e;`. The address stands in
    /// brackets unless it is a local.
    Store(Expr, ArchitectureSize, WasmType, Expr),
    /// The low bytes of a number put into memory: `*e.add(8).cast::<u8>() = (x) as u8;`. What is stored always stands in
    /// brackets.
    StoreSmall(Expr, ArchitectureSize, SmallType, Expr),
    /// The parts of a value, each with a name: `let P { f: x } = e;`, `let (x, ) = e;` or `let [x, ] = e;`.
    LetParts(Pattern, Expr),
    /// `let x = match e {`, the arms and `};`. Where nothing is bound it is `match e {`, the arms and `}`.
    Match(MatchNames, Expr, List<Arm>),
    /// A test of a last case's number: `debug_assert_eq!(n, 5, "invalid enum discriminant");`
    AssertLast(Text, u32),
    /// A local for a number or a pointer, with nothing in it yet: `let mut x = ::core::mem::MaybeUninit::<u64>::uninit();`
    LetSlot(Text),
    /// A pointer put into such a local: `x.as_mut_ptr().cast::<*mut u8>().write(e);`
    WriteSlot(Text, Expr),
}

impl Drop for Stmt {
    #[cycle(drop_stmt)]
    fn drop(self) {
        match self {
            Stmt::Import(_)
            | Stmt::Let(_, _)
            | Stmt::Expr(_)
            | Stmt::Area(_)
            | Stmt::Store(_, _, _, _)
            | Stmt::StoreSmall(_, _, _, _)
            | Stmt::LetParts(_, _)
            | Stmt::Match(_, _, _)
            | Stmt::AssertLast(_, _)
            | Stmt::LetSlot(_)
            | Stmt::WriteSlot(_, _) => {}
        }
    }
}

/// An arm of a `match`: `P::C => {`, the block and `},`.
#[cycle(stmt)]
#[derive(Debug, PartialEq)]
pub struct Arm {
    pub pattern: ArmPattern,
    pub body: Block,
}

impl Drop for Arm {
    #[cycle(drop_stmt)]
    fn drop(self) {
        let Arm {
            pattern: _,
            body: _,
        } = self;
    }
}

/// Statements, and the expression behind them that is the block's value.
#[cycle(stmt)]
#[derive(Debug, PartialEq)]
pub struct Block {
    pub stmts: List<Stmt>,
    pub tail: Option<Expr>,
}

impl Drop for Block {
    #[cycle(drop_stmt)]
    fn drop(self) {
        let Block { stmts: _, tail: _ } = self;
    }
}
