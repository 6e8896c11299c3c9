// Which numbers a dimension may be downsampled by.
ghost use Rattle.std.specs.Prelude.{◌≡◌, IsTrue};
ghost use Rattle.std.specs.List.{AllByRecursion, list_all};
ghost use Rattle.downsample_view.specs.Groups.{IsFactor, is_factor};

/// Whether each number is a factor of downsampling: from 1 to 4194304.
pub fn are_factors(factors: &[u64]) -> bool
    ensures from { IsTrue result → AllByRecursion IsFactor factors.now }
    ensures all { AllByRecursion IsFactor factors.now → IsTrue result }
{
    all_factors(factors)
}

fn all_factors(factors: &[u64]) -> bool
    ensures { result ≡ list_all is_factor factors.now }
{
    factors.iter().all(|factor| is_factor(*factor))
}

fn is_factor(factor: u64) -> bool
    ensures { result ≡ is_factor factor }
{
    1 <= factor && factor <= 4_194_304
}
