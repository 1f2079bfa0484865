// What stands at a place of a slice.
ghost use Rattle.std.specs.Prelude.{◌≡◌, ◌+◌, option_map, slice_get};

/// The item at a place, from 0, and the place behind it.
pub fn item_at<T>(items: &[T], at: usize) -> Option<(&T, usize)>
    ensures item { option_map (λ x. x.0.now) result ≡ slice_get items.now at }
    ensures next { option_map (λ x. x.1) result ≡ option_map (λ x. at + 1) (slice_get items.now at) }
{
    if at < items.len() {
        Some((&items[at], at + 1))
    } else {
        None
    }
}
