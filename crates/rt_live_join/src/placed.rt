ghost use Rattle.std.specs.Prelude.{◌≡◌, ◌↔◌, IsTrue};

/// Whether a node of this number, with so many posts, stands at the place of its number and has a post to each of the
/// others.
pub(crate) fn is_placed(number: u32, place: usize, posts: usize, others: u32) -> bool
    ensures { IsTrue result ↔ ((number ≡ place) × (posts ≡ others)) }
{
    number as usize == place && posts == others as usize
}
