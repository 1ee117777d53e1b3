// The keys that no request may use.
ghost use Rattle.std.specs.Prelude.{◌≡◌};
ghost use Rattle.catalogue.specs.Numbers.{reserved};
ghost use Rattle.catalogue.specs.Steps.Places.{key_refused};

use catalogue::workers::Request;

#[tactic(auto, using(laws::proofs::Ways::ways), unfolding(catalogue::specs::Numbers::reserved))]
fn reserved(k: i32) -> bool
    ensures { result ≡ reserved k }
{
    k == i32::MIN || k == i32::MAX
}

// A key that the request uses is reserved; codes 1 to 3 use one.
#[tactic(auto, unfolding(catalogue::specs::Steps::Places::key_refused))]
pub fn key_refused(q: Request) -> bool
    ensures { result ≡ key_refused q }
{
    reserved(q.pair.k) || 3 < q.code && reserved(q.pair.l)
}
