// The checks of counts, of workers' numbers and of codes.
ghost use Rattle.std.specs.Prelude.{◌≡◌};
ghost use Rattle.catalogue.specs.Tests.{one_to};
ghost use Rattle.catalogue.specs.Calls.{worker_fits};

// A number is 1 to another: a count of workers (21), a code (24).
pub fn one_to(most: u32, n: u32) -> bool
    ensures { result ≡ one_to most n }
{
    1 <= n && n <= most
}

// 21: the count first, then the worker's number.
#[tactic(auto, unfolding(catalogue::specs::Calls::worker_fits, catalogue::specs::Calls::count_fits))]
pub fn worker_fits(count: u32, worker: u32) -> bool
    ensures { result ≡ worker_fits count worker }
{
    one_to(8, count) && worker < count
}
