ghost use Rattle.std.specs.Prelude.{◌≡◌, ◌==◌, suc, IsTrue};

/// Whether the index is that of the next action behind the last one.
pub fn is_next(index: u64, last: u64) -> bool
    ensures value { result ≡ (index == suc last) }
    ensures equal { IsTrue result → index ≡ suc last }
{
    index > last && index - last == 1
}
