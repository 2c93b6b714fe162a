//! Values of printed types pass into and out of wrappers.

ghost use Rattle.wrapper_closing.specs.PrintedLaws.{
  PrintedParamsPass,
  PrintedResultsAnswer,
  PrintedResultsComeIn,
  PrintedValuesAreTaken,
};

/// What stands for a value is one of the type that its shape is printed as. So what an import gives is of its result type, what an export
/// passes to its method is of the types of the parameters, and what the method answers comes in as one of its result type.
pub fn printed_types_law()
    ensures values { PrintedValuesAreTaken }
    ensures answers { PrintedResultsAnswer }
    ensures passed { PrintedParamsPass }
    ensures received { PrintedResultsComeIn }
{}
