//! Laws of images, each the contract of a function that does nothing.

ghost use Rattle.cet_image.specs.Laws.{OneFunctionList, OneError, NoErrorOfImages, SharingIsMeeting};

/// An executable has one list of functions at most, and so one first error at most, and none where it has an image. Segments are
/// said to share a byte where some address lies in both.
pub fn one_answer()
    ensures functions { OneFunctionList }
    ensures error { OneError }
    ensures no_error { NoErrorOfImages }
    ensures sharing { SharingIsMeeting }
{}
