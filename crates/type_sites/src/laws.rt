//! The definitions of a world print its types as their shapes, and say how each is written.

ghost use Rattle.type_sites.specs.PrintedLaws.{
  LentParamsArePrinted,
  ParamsAreDirect,
  ParamsArePrinted,
  ResultsAreDirect,
  ResultsArePrinted,
  TypesAreDirect,
  TypesArePrinted,
};
ghost use Rattle.type_sites.specs.SiteLaws.{SitesAreDefined, SitesAreNamed, SitesCanBeDefined, SitesCanBeWritten};

/// A type that a function of a world uses is printed as its shape in each file that begins with the definitions of the world, and so are the
/// parameters and the result of a function that uses such types. The types of an imported function's parameters are lent of such.
pub fn printed_law()
    ensures types { TypesArePrinted }
    ensures params { ParamsArePrinted }
    ensures lent { LentParamsArePrinted }
    ensures results { ResultsArePrinted }
{}

/// The shape of a type that a function of a world uses is passed directly, and so are the parameters and the result of a function.
pub fn direct_law()
    ensures types { TypesAreDirect }
    ensures params { ParamsAreDirect }
    ensures results { ResultsAreDirect }
{}

/// Each type that has a site is defined as the site says, in each file that begins with the definitions of the world. So there are
/// definitions for these types, whatever file they are written into. And each type that a function reaches has a site that fits it, where it
/// is of a kind that has sites. The names of sites are identifiers.
pub fn site_law()
    ensures defined { SitesAreDefined }
    ensures can_be { SitesCanBeDefined }
    ensures written { SitesCanBeWritten }
    ensures named { SitesAreNamed }
{}
