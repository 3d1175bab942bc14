//! An amount that is dealt out by weights, in whole units.
ghost use Rattle.std.specs.Prelude.{◌≡◌, ℕ, ◌+◌, ◌<◌, ◌≤◌, ◌^◌, length, slice_index};
ghost use Rattle.finite_sums.specs.Sums.{total};
ghost use Rattle.water_model.specs.Shares.{part, share};

/// The part of an amount for one of several weights, where `before` is the sum of the weights before it and `all` that
/// of all. It is what falls to the weights up to this one, rounded down, less what falls to those before it, and 0
/// where all weights are 0.
pub fn share_next(amount: u64, before: u64, weight: u64, all: u64) -> u64
    requires { before + weight ≤ all }
    ensures { result ≡ part amount before weight all }
{
    if all == 0 {
        return 0;
    }
    let up_to = u128::from(amount) * u128::from(before + weight) / u128::from(all);
    let below = u128::from(amount) * u128::from(before) / u128::from(all);
    (up_to - below) as u64
}

/// An amount that is being dealt out by weights whose sum is `all`; those that were dealt to have the sum `before`.
#[derive(Clone, Copy, Debug, PartialEq, Eq)]
pub struct Shares {
    pub amount: u64,
    pub all: u64,
    pub before: u64,
}

impl Shares {
    /// Nothing is dealt out yet.
    pub fn begin(amount: u64, all: u64) -> Shares
        ensures { result ≡ record { amount = amount; all = all; before = 0 } }
    {
        Shares {
            amount,
            all,
            before: 0,
        }
    }

    /// The part for the next weight.
    pub fn next(&mut self, weight: u64) -> u64
        requires { self.old.before + weight ≤ self.old.all }
        ensures part { result ≡ part self.old.amount self.old.before weight self.old.all }
        ensures more { self.new ≡ record self.old { before = self.old.before + weight } }
    {
        let part = share_next(self.amount, self.before, weight, self.all);
        self.before += weight;
        part
    }
}

/// The sum of weights.
fn sum_of(weights: &[u64]) -> u64
    requires { total (length weights.now) (λ i. slice_index weights.now i) < 2 ^ 64 }
    ensures { result ≡ total (length weights.now) (λ i. slice_index weights.now i) }
{
    let mut all = 0;
    for i in 0..weights.len() {
        all += weights[i];
    }
    all
}

/// Writes the part for each weight, over what stood there. The cost is linear in the weights.
pub fn write_shares(amount: u64, weights: &[u64], parts: &mut [u64])
    requires one_each { length parts.old ≡ length weights.now }
    requires room { total (length weights.now) (λ i. slice_index weights.now i) < 2 ^ 64 }
    ensures count { length parts.new ≡ length parts.old }
    ensures each { (i : ℕ) → i < length weights.now →
        slice_index parts.new i ≡ share (length weights.now) amount (λ k. slice_index weights.now k) i }
{
    let mut shares = Shares::begin(amount, sum_of(weights));
    for i in 0..weights.len() {
        parts[i] = shares.next(weights[i]);
    }
}
