ghost use Rattle.std.specs.Prelude.{◌≡◌};
ghost use Rattle.std.specs.Option.{option_copied};
ghost use Rattle.cg_base.specs.Lists.{at_place};

/// The thing at a place, counted from 1.
pub(crate) fn at_place<T>(things: &[T], place: u64) -> Option<&T>
    ensures { option_copied result ≡ at_place things.now place }
{
    if place == 0 {
        return None;
    }
    things.get((place - 1) as usize)
}
