//! The laws of transactions. Each function does nothing: its clause is the law, for proofs to cite.

ghost use Rattle.bcv_snapshot.specs.FixedImage.{LooksAtFixedImage, PlacesInFixedImage, SizesAreFixed, VersionsArePut};
ghost use Rattle.bcv_snapshot.specs.CallLaw.{CallsChangeNoImage};
ghost use Rattle.bcv_snapshot.specs.Pins.{PinsStay};

/// Whatever calls come between, in any order and by anybody, a page that a transaction shows, or leads to, is that of
/// the image at its begin: a function of the base, of the commits of its view, and of the bytes first put under the
/// base's ids.
pub fn image_is_fixed()
    ensures begins { VersionsArePut }
    ensures sizes { SizesAreFixed }
    ensures looks { LooksAtFixedImage }
    ensures places { PlacesInFixedImage }
{}

/// Each call of a transaction, and a fetch over a sound log, is one of the calls that leave an image as it was.
pub fn calls_change_no_image()
    ensures { CallsChangeNoImage }
{}

/// The pins of transactions stay where a block is found or comes in, and go by no order. A client that keeps several
/// transactions over one cache rests on it.
pub fn pins_stay()
    ensures { PinsStay }
{}
