//! Whole numbers up to a limit.

ghost use Rattle.std.specs.Prelude.{◌≡◌, ◌^◌, ◌<◌, false, IfSome, IfNone};
ghost use Rattle.numbers.specs.Kinds.{Small, within};

/// A whole number of at most LIMIT, either way.
#[derive(Clone, Copy)]
pub(crate) struct Bounded<const LIMIT: u64> {
    pub(crate) value: i64,
    ghost small: { Small LIMIT value },
}

impl<const LIMIT: u64> Bounded<LIMIT> {
    /// The number x, if it is not past the limit.
    pub(crate) fn new(x: i64) -> Option<Bounded<LIMIT>>
        requires { LIMIT < 2 ^ 63 }
        ensures some { IfSome result (λ b. b.value ≡ x) }
        ensures none { IfNone result (within LIMIT x ≡ false) }
    {
        let limit = LIMIT as i64;
        if (-limit..=limit).contains(&x) {
            Some(Bounded { value: x })
        } else {
            None
        }
    }
}
