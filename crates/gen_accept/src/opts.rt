//! The options of the generator.

ghost use Rattle.std.specs.Prelude.{◌≡◌, IfOk};

use crate::try_copy::TryCopy;
use std::alloc::Global;
use std::fmt;
use type_defs::{Ownership, TypeOpts};
use wit_model::{List, OutOfMemory, Text};

/// What stands in for an imported interface or a type of one: a path outside the file, or generated code.
#[derive(Debug, PartialEq, Drop)]
pub enum WithOption {
    Path(Text),
    Generate,
}

impl WithOption {
    /// An equal value.
    pub fn copy(&self, alloc: Global) -> Result<WithOption, OutOfMemory>
        ensures { IfOk result (λ option. option ≡ self.now) }
    {
        match self {
            WithOption::Path(path) => Ok(WithOption::Path(path.copy(alloc)?)),
            WithOption::Generate => Ok(WithOption::Generate),
        }
    }
}

impl TryCopy for WithOption {
    fn try_copy(&self, alloc: Global) -> Result<WithOption, OutOfMemory> {
        self.copy(alloc)
    }
}

impl fmt::Display for WithOption {
    ghost use Rattle.std.specs.Prelude.{Some};
    ghost use Rattle.gen_accept.specs.WithText.{with_text};

    ghost output = { λ option. Some (with_text option) };

    fn fmt<W: fmt::Write>(&self, f: &mut fmt::Formatter<W>) -> fmt::Result {
        match self {
            WithOption::Path(path) => {
                f.write_str("\"")?;
                f.write_str(path.as_str())?;
                f.write_str("\"")
            }
            WithOption::Generate => f.write_str("generate"),
        }
    }
}

/// How a method without a result answers its `self`, so that calls chain.
#[derive(Clone, Copy, Debug, PartialEq, Eq)]
pub enum ChainingMode {
    Owning,
    Borrowing,
}

impl TryCopy for ChainingMode {
    fn try_copy(&self, _alloc: Global) -> Result<ChainingMode, OutOfMemory> {
        Ok(*self)
    }
}

/// The options of the generator.
#[derive(Debug, PartialEq)]
pub struct Opts {
    /// Whether the implementations of `Error` stand behind the feature `std`.
    pub std_feature: bool,
    /// Whether texts are vectors of bytes.
    pub raw_strings: bool,
    /// Whether stub implementations of the exports are printed.
    pub stubs: bool,
    /// Whether imported interfaces without a mapping of their own are generated.
    pub generate_all: bool,
    /// Whether the export macro is public.
    pub pub_export_macro: bool,
    /// Whether types that no function uses are printed.
    pub generate_unused_types: bool,
    /// The full names of functions to leave out.
    pub skip: List<Text>,
    /// The WIT names of types that get no additional derives.
    pub additional_derive_ignore: List<Text>,
    /// What stands in front of each export's name.
    pub export_prefix: Option<Text>,
    pub ownership: Ownership,
    /// The path of the runtime crate: `wit_bindgen::rt` if it is not set.
    pub runtime_path: Option<Text>,
    /// The path of the map type: the runtime's `Map` if it is not set.
    pub map_type: Option<Text>,
    /// The path of the bitflags crate: the runtime's `bitflags` if it is not set.
    pub bitflags_path: Option<Text>,
    /// The path of the module that holds the file: `self` if it is not set.
    pub default_bindings_module: Option<Text>,
    /// The paths of further derives of each type.
    pub additional_derive_attributes: List<Text>,
    /// Selectors of types, each with an attribute for them.
    pub additional_type_attributes: List<(Text, Text)>,
    /// Selectors of fields, cases and members, each with an attribute for them.
    pub additional_member_attributes: List<(Text, Text)>,
    /// The names of interfaces and types, each with what stands in for it.
    pub with: List<(Text, WithOption)>,
    /// The name of the export macro: `export` if it is not set.
    pub export_macro_name: Option<Text>,
    /// Whether types of equal structure are one type: not if it is absent, and yes if it has no value.
    pub merge_structurally_equal_types: Option<Option<bool>>,
    /// The full names of methods, each with how it chains.
    pub chainable_methods: List<(Text, ChainingMode)>,
}

// Not derived: what is derived stands again in each function that lets such a value go, and is proved with it.
impl Drop for Opts {
    fn drop(self) {
        let Opts {
            std_feature: _,
            raw_strings: _,
            stubs: _,
            generate_all: _,
            pub_export_macro: _,
            generate_unused_types: _,
            skip: _,
            additional_derive_ignore: _,
            export_prefix: _,
            ownership: _,
            runtime_path: _,
            map_type: _,
            bitflags_path: _,
            default_bindings_module: _,
            additional_derive_attributes: _,
            additional_type_attributes: _,
            additional_member_attributes: _,
            with: _,
            export_macro_name: _,
            merge_structurally_equal_types: _,
            chainable_methods: _,
        } = self;
    }
}

impl Opts {
    ghost use Rattle.gen_accept.specs.Default.{default_opts};
    ghost use Rattle.gen_accept.specs.TypeOpts.{type_opts};

    /// Every flag off, every list empty, every value absent, and owning types. It takes no memory.
    pub fn default(alloc: Global) -> Opts
        ensures { result ≡ default_opts }
    {
        Opts {
            std_feature: false,
            raw_strings: false,
            stubs: false,
            generate_all: false,
            pub_export_macro: false,
            generate_unused_types: false,
            skip: List::new(alloc),
            additional_derive_ignore: List::new(alloc),
            export_prefix: None,
            ownership: Ownership::Owning,
            runtime_path: None,
            map_type: None,
            bitflags_path: None,
            default_bindings_module: None,
            additional_derive_attributes: List::new(alloc),
            additional_type_attributes: List::new(alloc),
            additional_member_attributes: List::new(alloc),
            with: List::new(alloc),
            export_macro_name: None,
            merge_structurally_equal_types: None,
            chainable_methods: List::new(alloc),
        }
    }

    /// What the options say of the definitions of types.
    pub fn type_opts(&self) -> TypeOpts
        ensures { result ≡ type_opts self.now }
    {
        TypeOpts {
            ownership: self.ownership,
            generate_unused_types: self.generate_unused_types,
        }
    }

    /// Equal options.
    pub fn copy(&self, alloc: Global) -> Result<Opts, OutOfMemory>
        ensures { IfOk result (λ opts. opts ≡ self.now) }
    {
        Ok(Opts {
            std_feature: self.std_feature,
            raw_strings: self.raw_strings,
            stubs: self.stubs,
            generate_all: self.generate_all,
            pub_export_macro: self.pub_export_macro,
            generate_unused_types: self.generate_unused_types,
            skip: self.skip.try_copy(alloc)?,
            additional_derive_ignore: self.additional_derive_ignore.try_copy(alloc)?,
            export_prefix: self.export_prefix.try_copy(alloc)?,
            ownership: self.ownership,
            runtime_path: self.runtime_path.try_copy(alloc)?,
            map_type: self.map_type.try_copy(alloc)?,
            bitflags_path: self.bitflags_path.try_copy(alloc)?,
            default_bindings_module: self.default_bindings_module.try_copy(alloc)?,
            additional_derive_attributes: self.additional_derive_attributes.try_copy(alloc)?,
            additional_type_attributes: self.additional_type_attributes.try_copy(alloc)?,
            additional_member_attributes: self.additional_member_attributes.try_copy(alloc)?,
            with: self.with.try_copy(alloc)?,
            export_macro_name: self.export_macro_name.try_copy(alloc)?,
            merge_structurally_equal_types: self.merge_structurally_equal_types,
            chainable_methods: self.chainable_methods.try_copy(alloc)?,
        })
    }
}
