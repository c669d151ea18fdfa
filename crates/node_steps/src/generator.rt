//! The generator of a node's random draws.

ghost use Rattle.std.specs.Prelude.{◌≡◌, ◌+◌, ◌<◌, ◌^◌, ◌%◌, vec_len, IfOk, OnErr, OnOk};
ghost use Rattle.rand_chacha.specs.ChaCha.{ChaCha, key_of};
ghost use Rattle.node_steps.specs.Words.{words_next, place_after};

use crate::words::WordSource;
use node_calls::NodeFault;
use rand_chacha::ChaCha8Rng;
use rand_core::SeedableRng;
use rand_core::utils::NextWord;
use std::alloc::{AllocError, Global};
use std::marker::Model;

/// The generator of a node's random draws: ChaCha8 of a seed, on the stream of the node's number.
/// Contracts see its key, its stream, and the place of its next random draw, counted from 0.
#[derive(Drop)]
pub struct Generator {
    stream: ChaCha8Rng,
}

impl Model for Generator {
    ghost Value = { ChaCha };

    ghost view = { λ g. g.stream };
}

// 2^67, half of a stream. Each pass takes 16 random draws at most and a node accepts fewer than
// 2^56 calls, so none comes so far.
const LAST_PLACE: u128 = 147_573_952_589_676_412_928;

impl Generator {
    /// A generator at the start of a stream of the seed.
    pub fn new(seed: [u8; 32], stream: u64) -> Generator
        ensures { result ≡ record { key = key_of seed; stream = stream; word_pos = 0 } }
    {
        let mut words = ChaCha8Rng::from_seed(seed);
        words.set_stream(stream);
        Generator { stream: words }
    }

    /// The place of the next random draw.
    pub fn place(&self) -> u128
        ensures place { result ≡ self.now.word_pos }
        ensures bound { result < 2 ^ 68 }
    {
        self.stream.get_word_pos()
    }

    /// Goes over so many random draws, that were drawn before.
    pub fn skip(&mut self, count: u64)
        ensures { self.new ≡ record self.old { word_pos = (self.old.word_pos + count) % 2 ^ 68 } }
    {
        self.set_place(self.place() + count as u128);
    }

    /// Goes to a place.
    pub fn set_place(&mut self, place: u128)
        ensures { self.new ≡ record self.old { word_pos = place % 2 ^ 68 } }
    {
        self.stream.set_word_pos(place);
    }
}

impl WordSource for Generator {
    ghost use Rattle.node_steps.specs.Words.{words_next, place_after};

    ghost can_draw = { λ _. Unit {0} };

    ghost next_words = { words_next };

    ghost after_words = { place_after };

    fn draw(&mut self, alloc: Global, count: u8) -> Result<Vec<u32>, NodeFault> {
        if self.stream.get_word_pos() >= LAST_PLACE {
            return Err(NodeFault::OutOfMemory);
        }
        Ok(draw(alloc, &mut self.stream, count)?)
    }
}

// The next random draws of the generator, so many.
fn draw(alloc: Global, generator: &mut ChaCha8Rng, count: u8) -> Result<Vec<u32>, AllocError>
    requires { generator.old.word_pos + count < 2 ^ 68 }
    ensures words { IfOk result (λ words. words.items ≡ words_next generator.old count) }
    ensures many { IfOk result (λ words. vec_len words ≡ count) }
    ensures place { OnOk result (generator.new ≡ place_after generator.old count) }
    ensures err { OnErr result (generator.new ≡ generator.old) }
{
    let mut words = Vec::with_capacity(alloc, usize::from(count))?;
    for _ in 0..count {
        words.push_reserved(generator.next_word());
    }
    Ok(words)
}
