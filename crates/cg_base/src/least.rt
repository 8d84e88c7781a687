ghost use Rattle.std.specs.Prelude.{◌≡◌};
ghost use Rattle.cg_base.specs.Lists.{lesser};

/// The lesser of the two, where there are two: from `None` on, one after another, it finds the least of all.
pub fn lesser(least: Option<u64>, n: u64) -> Option<u64>
    ensures { result ≡ lesser least n }
{
    match least {
        None => Some(n),
        Some(m) => Some(n.min(m)),
    }
}
