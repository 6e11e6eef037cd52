//! The numbers of the calls that are to fail.
ghost use Rattle.std.specs.Prelude.{◌≡◌, ◌==◌};
ghost use Rattle.std.specs.List.{list_any};

pub fn is_among(numbers: &[u64], call: u128) -> bool
    ensures { result ≡ list_any (λ n. n == call) numbers.now }
{
    numbers.iter().any(|n| u128::from(*n) == call)
}
