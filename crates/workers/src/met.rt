// The set of vertex numbers that a trial has met, as bits of four words: every u8 has its bit in one of them.
ghost use Rattle.std.specs.Prelude.{false, ◌≡◌};
ghost use Rattle.catalogue.specs.Workers.{has, with_met, met_count};

#[tactic(auto, unfolding(catalogue::specs::Workers::has))]
pub fn met_has(met: [u64; 4], n: u8) -> bool
    ensures { result ≡ has met n }
{
    (met[(n / 64) as usize] >> (n % 64)) % 2 == 1
}

// The bit is clear, so that the sum sets it and cannot wrap.
pub fn with_met(met: [u64; 4], n: u8) -> [u64; 4]
    requires { has met n ≡ false }
    ensures { result ≡ with_met met n }
{
    let mut next = met;
    next[(n / 64) as usize] += 1 << (n % 64);
    next
}

pub fn met_count(met: [u64; 4]) -> u32
    ensures { result ≡ met_count met }
{
    met.iter().map(|word| word.count_ones()).sum()
}
