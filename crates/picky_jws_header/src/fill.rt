// Values put into their places.
ghost use Rattle.std.specs.Prelude.{◌≡◌};

// Puts a value in the place of another.
pub fn fill<T: Drop>(place: &mut Option<T>, value: Option<T>)
    ensures { place.new ≡ value }
{
    *place = value;
}
