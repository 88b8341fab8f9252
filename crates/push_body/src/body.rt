//! A body as it grows: one buffer, to which pieces are appended.
//!
//! Contracts see a `BodyText` as the list of its bytes, and each method says which bytes it appends. What it
//! has after an error is not told: a body that met one is let go.
ghost use Rattle.std.specs.Prelude.{◌≡◌, [], ◌++◌, IfOk, OnOk, decimal};
ghost use Rattle.push_body.specs.Bodies.{quoted};

use crate::quoted::push_quoted;
use itoa::Buffer;
use std::alloc::{AllocError, Global};
use std::marker::Model;

#[derive(Drop)]
pub(crate) struct BodyText {
    bytes: Vec<u8>,
}

impl Model for BodyText {
    ghost use Rattle.std.specs.Prelude.{ℕ, List};

    ghost Value = { List ℕ };

    ghost view = { λ b. b.bytes.items };
}

impl BodyText {
    /// An empty body, with room for so many bytes at first.
    pub(crate) fn new(alloc: Global, room: usize) -> Result<BodyText, AllocError>
        ensures { IfOk result (λ b. b ≡ []) }
    {
        let bytes = Vec::with_capacity(alloc, room)?;
        Ok(BodyText { bytes })
    }

    /// Makes room for so many bytes more.
    #[inline(always)]
    pub(crate) fn reserve(&mut self, room: usize) -> Result<(), AllocError>
        ensures { self.new ≡ self.old }
    {
        self.bytes.reserve(room)
    }

    /// Appends a piece as it stands.
    #[inline(always)]
    pub(crate) fn raw(&mut self, piece: &str) -> Result<(), AllocError>
        ensures { OnOk result (self.new ≡ self.old ++ piece.now) }
    {
        self.bytes.extend_from_slice(piece.as_bytes())
    }

    /// Appends a text as JSON, in quotes and escaped.
    #[inline(always)]
    pub(crate) fn text(&mut self, text: &str) -> Result<(), AllocError>
        ensures { OnOk result (self.new ≡ self.old ++ quoted text.now) }
    {
        push_quoted(&mut self.bytes, text)
    }

    /// Appends a number in decimal.
    #[inline(always)]
    pub(crate) fn number(&mut self, number: u64) -> Result<(), AllocError>
        ensures { OnOk result (self.new ≡ self.old ++ decimal number) }
    {
        let mut digits = Buffer::new();
        self.raw(digits.format(number))
    }

    /// Appends a piece as it stands, and a text as JSON.
    #[inline(always)]
    pub(crate) fn text_field(&mut self, head: &str, text: &str) -> Result<(), AllocError>
        ensures { OnOk result (self.new ≡ (self.old ++ head.now) ++ quoted text.now) }
    {
        self.raw(head)?;
        self.text(text)
    }

    /// Appends a piece as it stands, and a number in decimal.
    #[inline(always)]
    pub(crate) fn number_field(&mut self, head: &str, number: u64) -> Result<(), AllocError>
        ensures { OnOk result (self.new ≡ (self.old ++ head.now) ++ decimal number) }
    {
        self.raw(head)?;
        self.number(number)
    }

    pub(crate) fn into_bytes(self) -> Vec<u8>
        ensures { result.items ≡ self }
    {
        self.bytes
    }
}
