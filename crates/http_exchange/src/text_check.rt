//! Whether bytes that come in pieces are UTF-8.

ghost use Rattle.std.specs.Prelude.{◌≡◌, ◌<◌, ◌≤◌, ◌-◌, ◌↔◌, ◌++◌, ◌∷◌, List, ℕ, [], IsTrue};
ghost use Rattle.std.specs.Prelude.{drop, length, take};
ghost use Rattle.std.specs.Str.{IsUtf8};

use simdutf8::Checker;
use std::simd::prelude::*;

/// How many bytes are checked at once.
const BLOCK: usize = 64;

/// Checks bytes that come in pieces. A character may lie in several pieces.
#[derive(Clone, Copy)]
pub struct TextCheck {
    // It has read all blocks but the last.
    checker: Checker,
    // The last block, which has so many bytes.
    block: [u8; BLOCK],
    filled: usize,
    ghost has_room: { filled < 64 },
}

impl TextCheck {
    ghost use Rattle.http_exchange.specs.Checked.{HasChecked};

    /// Where nothing came yet.
    pub fn new() -> TextCheck
        ensures { HasChecked result [] }
    {
        TextCheck {
            checker: Checker::new(),
            block: [0; BLOCK],
            filled: 0,
        }
    }

    /// Takes the next piece.
    pub fn add(&mut self, piece: &[u8])
        ensures { (came : List ℕ) → HasChecked self.old came
            → HasChecked self.new (came ++ piece.now) }
    {
        // Up to the end of a block that was begun, then block by block.
        let left = (BLOCK - self.filled) % BLOCK;
        let (front, rest) = piece.split_at(left.min(piece.len()));
        self.add_bytes(front);
        let rest = if self.filled == 0 {
            self.add_blocks(rest)
        } else {
            rest
        };
        self.add_bytes(rest);
    }

    fn add_bytes(&mut self, bytes: &[u8])
        ensures { (came : List ℕ) → HasChecked self.old came
            → HasChecked self.new (came ++ bytes.now) }
    {
        for byte in bytes {
            self.add_byte(*byte);
        }
    }

    // Takes whole blocks, and returns what is behind them.
    fn add_blocks<'a>(&mut self, bytes: &'a [u8]) -> &'a [u8]
        requires { self.old.filled ≡ 0 }
        ensures rest { (length result.now ≤ length bytes.entry.now)
            × (result.now ≡ drop (length bytes.entry.now - length result.now) bytes.entry.now) }
        ensures all { (came : List ℕ) → HasChecked self.old came → HasChecked self.new
            (came ++ take (length bytes.entry.now - length result.now) bytes.entry.now) }
    {
        let mut rest = bytes;
        while let Some((block, more)) = rest.split_first_chunk() {
            self.add_block(block);
            rest = more;
        }
        rest
    }

    fn add_block(&mut self, block: &[u8; BLOCK])
        requires { self.old.filled ≡ 0 }
        ensures filled { self.new.filled ≡ 0 }
        ensures all { (came : List ℕ) → HasChecked self.old came
            → HasChecked self.new (came ++ block.now) }
    {
        self.checker = self.checker.step(u8x64::from_array(*block));
    }

    fn add_byte(&mut self, byte: u8)
        ensures { (came : List ℕ) → HasChecked self.old came
            → HasChecked self.new (came ++ byte ∷ []) }
    {
        let mut block = self.block;
        block[self.filled] = byte;
        if self.filled + 1 < BLOCK {
            *self = TextCheck {
                checker: self.checker,
                block,
                filled: self.filled + 1,
            };
        } else {
            *self = TextCheck {
                checker: self.checker.step(u8x64::from_array(block)),
                block,
                filled: 0,
            };
        }
    }

    /// Whether all that came is UTF-8.
    pub fn is_text(&self) -> bool
        ensures { (came : List ℕ) → HasChecked self.now came → (IsTrue result ↔ IsUtf8 came) }
    {
        let mut last = [0; BLOCK];
        last[..self.filled].copy_from_slice(&self.block[..self.filled]);
        self.checker.step(u8x64::from_array(last)).finish()
    }
}
