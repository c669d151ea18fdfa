//! Lines of warnings, and their text.

ghost use Rattle.std.specs.Prelude.{◌≡◌, ◌==◌, ◌++◌, ◌∷◌, [], length, map, IfOk, OnErr, OnOk, string_bytes};
ghost use Rattle.std.specs.Vec.{vec_items};
ghost use Rattle.warnings.specs.Lines.{text_of_lines};

use std::alloc::{AllocError, Global};
use std::marker::Model;

/// What is said of lines that go wrong: a line each, in their order. A line may be no UTF-8, as where it
/// quotes one of a script.
#[derive(Drop)]
pub struct Warnings {
    lines: Vec<Vec<u8>>,
}

impl Model for Warnings {
    ghost use Rattle.std.specs.Prelude.{ℕ, List, map};
    ghost use Rattle.std.specs.Vec.{vec_items};

    ghost Value = { List (List ℕ) };

    ghost view = { λ w. map vec_items w.lines.items };
}

impl Warnings {
    /// No line.
    pub fn new(alloc: Global) -> Warnings
        ensures { result ≡ [] }
    {
        Warnings {
            lines: Vec::new(alloc),
        }
    }

    /// Adds a line, which has no newline at its end. The only error is out of memory, and then there are
    /// no more lines than before.
    pub fn push(&mut self, line: Vec<u8>) -> Result<(), AllocError>
        ensures ok { OnOk result (self.new ≡ self.old ++ line.items ∷ []) }
        ensures err { OnErr result (self.new ≡ self.old) }
    {
        match self.lines.push(line) {
            Ok(()) => Ok(()),
            Err(_) => Err(AllocError),
        }
    }

    /// Adds a line that is a text.
    pub fn push_text(&mut self, line: String) -> Result<(), AllocError>
        ensures ok { OnOk result (self.new ≡ self.old ++ string_bytes line ∷ []) }
        ensures err { OnErr result (self.new ≡ self.old) }
    {
        self.push(line.into_bytes())
    }

    /// Adds the lines of others behind its own.
    pub fn append(&mut self, others: Warnings) -> Result<(), AllocError>
        ensures { OnOk result (self.new ≡ self.old ++ others) }
    {
        let Warnings { lines } = others;
        for line in lines {
            self.push(line)?;
        }
        Ok(())
    }

    /// Whether nothing is said.
    pub fn is_empty(&self) -> bool
        ensures { result ≡ (length self.now == 0) }
    {
        self.lines.is_empty()
    }

    /// The lines.
    pub fn lines(&self) -> &[Vec<u8>]
        ensures { map vec_items result.now ≡ self.now }
    {
        &self.lines
    }

    /// The lines as one text, each with a newline at its end.
    pub fn text(&self, alloc: Global) -> Result<Vec<u8>, AllocError>
        ensures { IfOk result (λ text. text.items ≡ text_of_lines self.now) }
    {
        let mut text = Vec::new(alloc);
        for line in &self.lines {
            text.extend_from_slice(line)?;
            text.push(b'\n')?;
        }
        Ok(text)
    }
}
