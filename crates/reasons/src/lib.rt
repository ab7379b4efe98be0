// What a call is turned back with: one of the reasons, or any number.
#![tactic(auto)]

ghost use Rattle.std.specs.Prelude.{◌≡◌, ℕ};
ghost use Rattle.refusal.specs.Refusal.{number_of};

use refusal::Refusal;

// What a call is turned back with: it has a number, and each reason is one.
pub trait Reason: Copy {
    ghost number: { Self → ℕ };

    // Its number.
    fn number(self) -> u64
        ensures { result ≡ number self };

    // The one that a reason is.
    fn of(refusal: Refusal) -> Self
        ensures { number result ≡ number_of refusal };
}

// A reason, with the number that it has.
impl Reason for Refusal {
    ghost number = { number_of };

    fn number(self) -> u64 {
        u64::from(self)
    }

    fn of(refusal: Refusal) -> Refusal {
        refusal
    }
}

// Any number, as it is.
impl Reason for u64 {
    ghost number = { λ n. n };

    fn number(self) -> u64 {
        self
    }

    fn of(refusal: Refusal) -> u64 {
        u64::from(refusal)
    }
}
