// Counts, single and side by side. They are held at the greatest u64, which no capture reaches. Cost: constant.

#![tactic(auto)]

ghost use Rattle.std.specs.Prelude.{◌≡◌};
ghost use Rattle.counts.specs.Counts.{one_more, one_more_at, all_zero};

// A count and one more.
pub fn one_more(count: u64) -> u64
    ensures { result ≡ one_more count }
{
    count.saturating_add(1)
}

// Counts side by side, with one more at a place: none where there is no such place.
pub fn add_at(counts: &mut [u64], i: usize)
    ensures { counts.new ≡ one_more_at counts.old i }
{
    if i < counts.len() {
        counts[i] = one_more(counts[i]);
    }
}

// Whether counts side by side are all 0.
pub fn are_zero(counts: &[u64]) -> bool
    ensures { result ≡ all_zero counts.now }
{
    counts.iter().all(|n| *n == 0)
}
