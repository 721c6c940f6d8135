//! What patterns are asked of.

ghost use Rattle.std.specs.Prelude.{◌≡◌, ◌<◌, List, length, slice_get, option_map, IfSome, Some};
ghost use Rattle.headers.specs.Header.{plain_header};
ghost use Rattle.patterns_match.specs.Listings.{Message};

use crate::row::Row;
use headers::Header;

/// A listing of messages with their parents and roots.
pub trait Table {
    /// The messages in the order of the listing.
    ghost messages: { Self → List Message };

    fn len(&self) -> usize
        ensures { result ≡ length (messages self.now) };

    fn row(&self, place: usize) -> Option<&Row>
        ensures { option_map (λ r. r.now) result
            ≡ option_map (λ m. m.row) (slice_get (messages self.now) place) };

    fn header(&self, place: usize) -> Option<&Header>
        ensures { option_map (λ r. plain_header r.now) result
            ≡ option_map (λ m. m.header) (slice_get (messages self.now) place) };

    /// The bytes of a message.
    fn raw(&self, place: usize) -> Option<&[u8]>
        ensures { option_map (λ r. r.now) result
            ≡ option_map (λ m. m.raw) (slice_get (messages self.now) place) };

    fn parent(&self, place: usize) -> Option<usize>
        requires { place < length (messages self.now) }
        ensures value { Some result
            ≡ option_map (λ m. m.parent) (slice_get (messages self.now) place) }
        ensures within { IfSome result (λ other. other < length (messages self.now)) };

    fn root(&self, place: usize) -> usize
        requires { place < length (messages self.now) }
        ensures value { Some result
            ≡ option_map (λ m. m.root) (slice_get (messages self.now) place) }
        ensures within { result < length (messages self.now) };

    /// Whether it has the id of an earlier message.
    fn duplicate(&self, place: usize) -> bool
        requires { place < length (messages self.now) }
        ensures { Some result
            ≡ option_map (λ m. m.duplicate) (slice_get (messages self.now) place) };
}
