//! A function that answers the parity, kept beside the fact that it does.
ghost use Rattle.std.specs.Prelude.{◌≡◌, ◌^◌, ◌<◌, ◌≤◌, length, All};
ghost use Rattle.dory_kernel.specs.Parity.{is_odd_common};

/// The way in which a domain goes over its rows: one of the two bodies here, or any other that answers the same.
#[derive(Drop)]
pub struct RowKernel {
    body: fn(&[u64], &[u64]) -> bool,
    ghost callable: { (row : _) (selector : _) → length row.now ≡ length selector.now → length row.now ≤ 32
        → All (λ x. x < 2 ^ 64) row.now → All (λ x. x < 2 ^ 64) selector.now → pre body row selector },
    ghost right: { (row : _) (selector : _) (answer : _) → length row.now ≡ length selector.now → length row.now ≤ 32
        → All (λ x. x < 2 ^ 64) row.now → All (λ x. x < 2 ^ 64) selector.now → post body row selector answer
        → answer ≡ is_odd_common row.now selector.now },
}

impl RowKernel {
    /// Keeps a function that may be called on as many words of each, at most 32, and that answers their parity.
    pub fn new(body: fn(&[u64], &[u64]) -> bool) -> RowKernel
        requires callable { (row : _) (selector : _) → length row.now ≡ length selector.now → length row.now ≤ 32
            → All (λ x. x < 2 ^ 64) row.now → All (λ x. x < 2 ^ 64) selector.now → pre body row selector }
        requires right { (row : _) (selector : _) (answer : _) → length row.now ≡ length selector.now → length row.now ≤ 32
            → All (λ x. x < 2 ^ 64) row.now → All (λ x. x < 2 ^ 64) selector.now → post body row selector answer
            → answer ≡ is_odd_common row.now selector.now }
        ensures { result.body ≡ body }
    {
        RowKernel { body }
    }

    /// Whether the row and the selector have an odd number of ones in common.
    pub fn parity(&self, row: &[u64], selector: &[u64]) -> bool
        requires same { length row.now ≡ length selector.now }
        requires few { length row.now ≤ 32 }
        ensures { result ≡ is_odd_common row.now selector.now }
    {
        (self.body)(row, selector)
    }

    /// A kernel with the same function.
    pub fn again(&self) -> RowKernel
        ensures { result.body ≡ self.now.body }
    {
        RowKernel { body: self.body }
    }
}
