//! Wrappers that close the driver's code are faithful.

ghost use Rattle.wrapper_closing.specs.Laws.{
  ClosedExportIsFaithful,
  ClosedImportIsFaithful,
  ClosedPostReturnFrees,
  ClosedPostReturnIsReturned,
  ExportBodyAreaIsFor,
  ExportBodyIsFaithful,
  ImportBodyIsFaithful,
  NeededAreaIsShared,
  PostReturnBodyFrees,
  PostReturnBodyIsReturned,
  UnlistedIsUnreturned,
};

/// The wrapper of an import that closes the driver's code is faithful to its function.
pub fn import_law()
    ensures { ClosedImportIsFaithful }
{}

/// The wrapper of an export that closes the driver's code is faithful to its function, where its post-return function is.
pub fn export_law()
    ensures { ClosedExportIsFaithful }
{}

/// The post-return function of an export that closes the driver's code frees what the words own, and is that of the wrapper where it is
/// entered. A function whose result may hold no text needs none.
pub fn post_return_law()
    ensures frees { ClosedPostReturnFrees }
    ensures returned { ClosedPostReturnIsReturned }
    ensures unreturned { UnlistedIsUnreturned }
{}

/// The wrapper of an import that closes the body which was made for its function is faithful to it.
pub fn import_body_law()
    ensures { ImportBodyIsFaithful }
{}

/// The wrapper of an export that closes the body which was made for its function is faithful to it, where its post-return function is. The
/// area that the body needs is that of the function's result, and the area for several bodies is shared by their functions.
pub fn export_body_law()
    ensures faithful { ExportBodyIsFaithful }
    ensures area { ExportBodyAreaIsFor }
    ensures shared { NeededAreaIsShared }
{}

/// The post-return function that closes the body which was made for it frees what the words own, and is that of the wrapper where it is
/// entered.
pub fn post_return_body_law()
    ensures frees { PostReturnBodyFrees }
    ensures returned { PostReturnBodyIsReturned }
{}
