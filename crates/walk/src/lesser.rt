// The lesser of two values, either of which may be missing. It knows nothing of what they are.
ghost use Rattle.std.specs.Prelude.{◌≡◌};
ghost use Rattle.walk.specs.Lesser.{lesser_of};

// The lesser of two; of none and one, the one.
pub fn lesser<T: Ord + Copy>(one: Option<T>, other: Option<T>) -> Option<T>
    ensures value { result ≡ lesser_of T.cmp one other }
{
    match (one, other) {
        (Some(mine), Some(theirs)) => Some(mine.min(theirs)),
        _ => one.or(other),
    }
}
