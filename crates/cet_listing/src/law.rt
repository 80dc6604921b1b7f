//! Laws of listings, each the contract of a function that does nothing.
ghost use Rattle.cet_listing.specs.Laws.{OneListing, OneStop, ListingOrStop};

/// Bytes have at most one listing at an address.
pub fn one_listing()
    ensures { OneListing }
{}

/// The listing of bytes at an address stops at one place at most, for one reason.
pub fn one_stop()
    ensures { OneStop }
{}

/// Bytes that have a listing at an address do not stop.
pub fn listing_or_stop()
    ensures { ListingOrStop }
{}
