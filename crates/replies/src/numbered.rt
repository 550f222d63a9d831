// What a call may be refused by: C is told a number, and each of these has one.
ghost use Rattle.std.specs.Prelude.{◌≡◌, ℕ};
ghost use Rattle.model.specs.Refusals.{number_of};

use model::refusal::Refusal;

// An error that has a number.
pub trait Numbered: Copy {
    ghost number: { Self → ℕ };

    fn number(self) -> u32
        ensures { result ≡ number self };
}

// Of a refusal it is the check's.
impl Numbered for Refusal {
    ghost number = { number_of };

    fn number(self) -> u32
        ensures { result ≡ number_of self }
    {
        self.number()
    }
}

// And a number, whether a check has it or not, is its own.
impl Numbered for u32 {
    ghost number = { λ number. number };

    fn number(self) -> u32 {
        self
    }
}
