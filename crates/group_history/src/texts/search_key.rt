//! A text that is sought among others.
ghost use Rattle.std.specs.Prelude.{◌≡◌};
ghost use Rattle.std.specs.Cmp.Lexicographic.{slice_cmp};
ghost use Rattle.std.specs.Ordering.{is_gt, nat_cmp};
ghost use Rattle.group_history.specs.Inside.Fronts.{front_of, AreBytes};

use super::packed::front_of_bytes;
use super::{Kept, Text};
use std::cmp::Ordering;
use std::marker::Model;

/// A text that is compared with many others: its first bytes are read once.
#[derive(Drop)]
pub struct SearchKey<'a> {
    text: &'a str,
    front: u128,
    ghost first: { front ≡ front_of text.now },
    ghost bytes: { AreBytes text.now },
}

impl<'a> Model for SearchKey<'a> {
    ghost use Rattle.std.specs.Prelude.{ℕ, List};

    ghost Value = { List ℕ };

    ghost view = { λ s. s.text.now };
}

impl<'a> SearchKey<'a> {
    /// To be compared with many others.
    pub fn new(text: &'a str) -> SearchKey<'a>
        ensures { result ≡ text.now }
    {
        let front = front_of_bytes(text.as_bytes());
        SearchKey { text, front }
    }

    /// How the given text stands to this one, by bytes.
    // Not inlined: so the searches that call it are small, and are inlined themselves.
    #[inline(never)]
    pub fn order_of(&self, text: &Text) -> Ordering
        ensures { result ≡ slice_cmp nat_cmp text.now self.now }
    {
        match &text.kept {
            Kept::Short(short) => self.order_by(short.front(), short.as_str()),
            Kept::Middling(middling) => self.order_by(middling.front(), middling.as_str()),
            Kept::Long(long) => self.order_by_all(long.as_str()),
        }
    }

    // The same, of a text whose front is known.
    #[inline(always)]
    fn order_by(&self, front: u128, text: &str) -> Ordering
        requires front { front ≡ front_of text.now }
        requires bytes { AreBytes text.now }
        ensures { result ≡ slice_cmp nat_cmp text.now self.now }
    {
        let order = front.cmp(&self.front);
        if order.is_ne() {
            return order;
        }
        let (len, own) = (text.len(), self.text.len());
        if len <= 16 && own <= 16 {
            return len.cmp(&own);
        }
        self.order_by_all(text)
    }

    // The same, by all bytes.
    #[inline(never)]
    fn order_by_all(&self, text: &str) -> Ordering
        ensures { result ≡ slice_cmp nat_cmp text.now self.now }
    {
        text.cmp(self.text)
    }

    /// Whether the given text is above this one, by bytes.
    #[inline(always)]
    pub fn is_below(&self, text: &Text) -> bool
        ensures { result ≡ is_gt (slice_cmp nat_cmp text.now self.now) }
    {
        if let Kept::Short(short) = &text.kept {
            let front = short.front();
            if front < self.front {
                return false;
            }
            if self.front < front {
                return true;
            }
        }
        self.is_below_all(text)
    }

    // The same, where the front of a short text doesn't tell.
    #[inline(never)]
    fn is_below_all(&self, text: &Text) -> bool
        ensures { result ≡ is_gt (slice_cmp nat_cmp text.now self.now) }
    {
        self.order_of(text).is_gt()
    }
}
