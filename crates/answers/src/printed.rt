//! What a program prints: its answers, by the writer that is wanted.

ghost use Rattle.std.specs.Prelude.{◌≡◌, None, Some, OnOk};
ghost use Rattle.answers.specs.Answers.{answer_value};
ghost use Rattle.answers.specs.Printing.{after_put, before_put, with_bytes};

use crate::answer::{Answer, Kind};
use crate::lines::push_line;
use crate::objects::push_object;
use std::alloc::{AllocError, Global};
use std::marker::Model;

/// How answers are printed.
#[derive(Clone, Copy)]
pub enum Format {
    /// As lines.
    Lines,
    /// As JSON objects.
    Objects,
}

/// The answers that a program prints, and the last of them as lines.
#[derive(Drop)]
pub struct Printed {
    format: Format,
    bytes: Vec<u8>,
    // The last answer. It is kept for its memory, too.
    line: String,
    kind: Kind,
}

impl Model for Printed {
    ghost use Rattle.std.specs.Prelude.{string_bytes};
    ghost use Rattle.answers.specs.Printing.{Printing};

    ghost Value = { Printing };

    ghost view = { λ p. record {
      format = p.format;
      bytes = p.bytes.items;
      line = string_bytes p.line;
      kind = p.kind;
    } };
}

impl Printed {
    /// Nothing yet.
    pub fn new(alloc: Global, format: Format) -> Printed
        ensures { result ≡ before_put format }
    {
        Printed {
            format,
            bytes: Vec::new(alloc),
            line: String::new(alloc),
            kind: Kind::Other,
        }
    }

    /// Adds an answer.
    pub fn put(&mut self, alloc: Global, answer: Answer<'_>) -> Result<(), AllocError>
        ensures { OnOk result (self.new ≡ after_put self.old (Some (answer_value answer.entry))) }
    {
        self.line.clear();
        self.kind = answer.kind();
        push_line(alloc, answer, &mut self.line)?;
        match self.format {
            Format::Lines => self.bytes.extend_from_slice(self.line.as_bytes()),
            Format::Objects => push_object(alloc, answer, &mut self.bytes),
        }
    }

    /// Where nothing is answered: there is no last answer.
    pub fn put_none(&mut self)
        ensures { self.new ≡ after_put self.old None }
    {
        self.line.clear();
        self.kind = Kind::Other;
    }

    /// Adds bytes that are no answer.
    pub fn put_bytes(&mut self, bytes: &[u8]) -> Result<(), AllocError>
        ensures { OnOk result (self.new ≡ with_bytes self.old bytes.now) }
    {
        self.bytes.extend_from_slice(bytes)
    }

    /// The last answer as lines.
    pub fn line(&self) -> &str
        ensures { result.now ≡ self.now.line }
    {
        &self.line
    }

    /// The kind of the last answer.
    pub fn kind(&self) -> Kind
        ensures { result ≡ self.now.kind }
    {
        self.kind
    }

    /// All that is printed.
    pub fn into_bytes(self) -> Vec<u8>
        ensures { result.items ≡ self.bytes }
    {
        let Printed {
            format: _,
            bytes,
            line: _,
            kind: _,
        } = self;
        bytes
    }
}
