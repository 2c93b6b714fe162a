//! What the exports of a world are listed under, and the order of these keys.

ghost use Rattle.std.specs.Prelude.{◌≡◌, IfOk};
ghost use Rattle.std.proofs.Common.{rules};
ghost use Rattle.std.specs.Cmp.{partial_order_from_own_ties};
ghost use Rattle.std.specs.Cmp.Lexicographic.{texts_ties};
ghost use Rattle.std.specs.Cmp.Rules.{comparing, hashing};
ghost use Rattle.std.specs.Hash as fed;
ghost use Rattle.std.specs.Ordering.{as_partial_cmp};
ghost use Rattle.gen_accept.specs.ExportKey.{key_name, key_eq, key_cmp};

use std::alloc::Global;
use std::cmp::Ordering;
use std::hash::{Hash, Hasher};
use wit_model::{OutOfMemory, Text};

/// What exports are listed under: the world itself, or an interface by its name. The world stands first, and the names
/// follow in the order of their bytes.
#[derive(Debug, Drop)]
pub enum ExportKey {
    World,
    Name(Text),
}

impl ExportKey {
    /// An equal key.
    pub fn copy(&self, alloc: Global) -> Result<ExportKey, OutOfMemory>
        ensures { IfOk result (λ k. k ≡ self.now) }
    {
        match self {
            ExportKey::World => Ok(ExportKey::World),
            ExportKey::Name(name) => Ok(ExportKey::Name(name.copy(alloc)?)),
        }
    }
}

impl PartialEq for ExportKey {
    ghost eq = { key_eq };

    ghost laws = { Prim.search (comparing, rules) };

    fn eq(&self, other: &ExportKey) -> bool {
        match (self, other) {
            (ExportKey::World, ExportKey::World) => true,
            (ExportKey::Name(a), ExportKey::Name(b)) => a.as_str() == b.as_str(),
            (_, _) => false,
        }
    }
}

impl Eq for ExportKey {
    ghost laws = { Prim.search (comparing, rules) };
}

impl PartialOrd for ExportKey {
    ghost partial_cmp = { as_partial_cmp key_cmp };

    ghost laws = { partial_order_from_own_ties (Prim.search (comparing, rules)) (Prim.search (texts_ties, rules)) };

    fn partial_cmp(&self, other: &ExportKey) -> Option<Ordering> {
        Some(self.cmp(other))
    }
}

impl Ord for ExportKey {
    ghost cmp = { key_cmp };

    ghost total = { Prim.search (comparing, rules) };

    ghost matches_partial_cmp = { Prim.search (comparing, rules) };

    ghost matches_eq = { Prim.search (texts_ties, rules) };

    fn cmp(&self, other: &ExportKey) -> Ordering {
        match (self, other) {
            (ExportKey::World, ExportKey::World) => Ordering::Equal,
            (ExportKey::World, ExportKey::Name(_)) => Ordering::Less,
            (ExportKey::Name(_), ExportKey::World) => Ordering::Greater,
            (ExportKey::Name(a), ExportKey::Name(b)) => a.as_str().cmp(&b.as_str()),
        }
    }
}

impl Hash for ExportKey {
    ghost hash_input = { λ key. fed.option fed.str (key_name key) };

    ghost respects_eq = { Prim.search (hashing, rules) };

    fn hash<H: Hasher>(&self, state: &mut H) {
        match self {
            ExportKey::World => state.write_isize(0),
            ExportKey::Name(name) => {
                state.write_isize(1);
                name.as_str().hash(state);
            }
        }
    }
}
