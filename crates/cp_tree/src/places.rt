// Items by their places.
ghost use Rattle.std.specs.Prelude.{◌≡◌, ◌<◌, length, slice_index};

// The item at a place.
pub(crate) fn item_at(items: &[usize], place: usize) -> usize
    requires { place < length items.now }
    ensures { result ≡ slice_index items.now place }
{
    items[place]
}
