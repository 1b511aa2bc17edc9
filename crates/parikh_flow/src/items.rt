//! Elements by their places.
ghost use Rattle.std.specs.Prelude.{◌≡◌, ◌<◌, length, slice_get, Some};

pub fn item_at<T>(items: &[T], at: usize) -> &T
    requires { at < length items.now }
    ensures { slice_get items.now at ≡ Some result.now }
{
    &items[at]
}
