//! Random draws that are given with a pass.

ghost use Rattle.std.specs.Prelude.{◌≡◌};

use node_calls::NodeFault;
use node_steps::WordSource;
use std::alloc::Global;

/// Words that a caller gave: all of them, or none.
#[derive(Drop)]
pub(crate) struct GivenWords<'a> {
    words: &'a [u32],
}

impl<'a> GivenWords<'a> {
    pub(crate) fn new(words: &'a [u32]) -> GivenWords<'a>
        ensures { result.words.now ≡ words.now }
    {
        GivenWords { words }
    }
}

impl WordSource for GivenWords<'_> {
    ghost can_draw = { λ _. Unit {0} };

    ghost next_words = { λ given count. given.words.now };

    ghost after_words = { λ given count. given };

    fn draw(&mut self, alloc: Global, count: u8) -> Result<Vec<u32>, NodeFault> {
        if self.words.len() != usize::from(count) {
            return Err(NodeFault::BadWords { need: count });
        }
        Ok(Vec::from_slice(alloc, self.words)?)
    }
}
