//! Where the random draws of passes come from.

ghost use Rattle.std.specs.Prelude.{◌≡◌, ◌⊎◌, vec_len, Some, IfOk, IfErr, OnOk, OnErr};
ghost use Rattle.node_steps.specs.Refusals.{bad_words};

use node_calls::NodeFault;
use std::alloc::Global;

/// A source of random draws, from which a pass draws as many as its point needs.
pub trait WordSource {
    ghost use Rattle.std.specs.Prelude.{ℕ, List};

    // Whether it has the random draws of any pass; the next random draws, so many; and the source
    // after them.
    ghost can_draw: { Self → Type 0 };

    ghost next_words: { Self → ℕ → List ℕ };

    ghost after_words: { Self → ℕ → Self };

    /// The next random draws, so many. Where they aren't so many that is the refusal, and nothing
    /// is drawn.
    fn draw(&mut self, alloc: Global, count: u8) -> Result<Vec<u32>, NodeFault>
        requires { can_draw self.old }
        ensures words { IfOk result (λ words. words.items ≡ next_words self.old count) }
        ensures many { IfOk result (λ words. vec_len words ≡ count) }
        ensures after { OnOk result (self.new ≡ after_words self.old count) }
        ensures refused { IfErr result (λ f. (f ≡ NodeFault.OutOfMemory)
            ⊎ (bad_words count (next_words self.old count) ≡ Some f)) }
        ensures err { OnErr result (self.new ≡ self.old) };
}
