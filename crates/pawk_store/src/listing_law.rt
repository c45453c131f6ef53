//! Laws of what a listing has.

ghost use Rattle.pawk_store.specs.ListingLaw.{ListingLaw};

/// The names of a listing rise strictly and are those of the globals, each of which has what it had.
pub fn listing_law()
    ensures { ListingLaw }
{}
