// Numbers of events that rise.
ghost use Rattle.std.specs.Prelude.{◌≡◌, ◌≤◌, ◌↔◌, length, Contains, IsTrue};
ghost use Rattle.chunk_versions.specs.Moments.{IsRising, up_to};

/// How many of the numbers, which rise, are at most a moment. The time is logarithmic in their count.
pub fn up_to(numbers: &[u64], moment: u64) -> usize
    requires { IsRising numbers.now }
    ensures value { result ≡ up_to moment numbers.now }
    ensures few { result ≤ length numbers.now }
{
    match numbers.binary_search(&moment) {
        Ok(place) => place + 1,
        Err(place) => place,
    }
}

/// Whether the number is among those, which rise. The time is logarithmic in their count.
pub fn is_among(numbers: &[u64], number: u64) -> bool
    requires { IsRising numbers.now }
    ensures { IsTrue result ↔ Contains numbers.now number }
{
    match numbers.binary_search(&number) {
        Ok(_) => true,
        Err(_) => false,
    }
}
