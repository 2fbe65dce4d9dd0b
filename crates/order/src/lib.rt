// The order of the levels, as an interface.
#![tactic(auto)]

ghost use Rattle.std.specs.Prelude.{◌≡◌, ℕ, ◌<◌, Bool, true};
ghost use Rattle.order.specs.Orders.{PartialOrder};

use event::Level;

pub mod table;

// A partial order on levels numbered from 0: which level is below which.
pub trait Order {
    // how many levels there are
    ghost size: { Self → ℕ };
    // whether a level is below another
    ghost under: { Self → ℕ → ℕ → Bool };

    fn levels(&self) -> usize
        ensures { result ≡ size self.now };

    // Whether a is below b; a number that is no level is neither below nor above any.
    fn below(&self, a: Level, b: Level) -> bool
        ensures { result ≡ under self.now a b };

    ghost lawful: { (x : Self) → PartialOrder (size x) (under x) };

    ghost inside: { (x : Self) (a b : ℕ) → under x a b ≡ true → (a < size x) × (b < size x) };
}
