//! An amount added at an index of a list.
ghost use Rattle.std.specs.Prelude.{ℕ, ◌≡◌, ◌+◌, ◌<◌, ◌^◌, length, slice_index, ◌==◌};
ghost use Rattle.finite_sums.specs.Sums.{when};

/// Adds an amount at an index.
#[tactic(auto, using(crate::proofs::Adds::added))]
pub fn add_at(list: &mut [u64], position: usize, amount: u64)
    requires position { position < length list.old }
    requires small { slice_index list.old position + amount < 2 ^ 64 }
    ensures length { length list.new ≡ length list.old }
    ensures each { (k : ℕ) → slice_index list.new k ≡ slice_index list.old k + when (position == k) amount }
{
    list[position] += amount;
}
