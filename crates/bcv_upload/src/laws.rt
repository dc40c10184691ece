//! Laws of uploads. Each function does nothing: its clause is the law, for proofs to cite.
ghost use Rattle.bcv_upload.specs.UploadDescent.{LeftFalls, PutFalls, WorkFalls};
ghost use Rattle.bcv_upload.specs.UploadPut.{BlocksHoldTheView, BlocksStay, BlocksStayAfterPut, UploadedIsTheView};

/// An upload that has put all its blocks publishes exactly the image of its view. A client says by it which edit of
/// the machine a put is.
pub fn uploaded_is_the_view()
    ensures { UploadedIsTheView }
{}

/// The bytes that are put for a block are the pages of the view's image there, and zeros past its size.
pub fn blocks_hold_the_view()
    ensures { BlocksHoldTheView }
{}

/// What an upload stands on and has put stays, while others append lawful entries and after one more own block.
pub fn blocks_stay()
    ensures others { BlocksStay }
    ensures put { BlocksStayAfterPut }
{}

/// By how much a step lowers the requests that are left: by one for each request that it makes, and by one more where
/// it puts a block for which no get was needed.
pub fn left_falls()
    ensures { LeftFalls }
{}

/// A step that goes on, and a put that is refused, lower the upload's state in an order that has no endless descent.
pub fn steps_fall()
    ensures work { WorkFalls }
    ensures put { PutFalls }
{}
