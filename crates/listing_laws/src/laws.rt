//! Laws of the definitions, each the contract of a function that does nothing.

ghost use Rattle.listing_laws.specs.Laws.{ListingIsScanned};

/// A listing to which what changed was done is the one that was scanned.
pub fn listing_is_scanned()
    ensures { ListingIsScanned }
{}
