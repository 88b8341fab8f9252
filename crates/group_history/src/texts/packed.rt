//! A text of at most `N` bytes, which lie in the value itself.
ghost use Rattle.std.specs.Prelude.{◌≡◌, ◌≤◌, ◌<◌, ◌-◌, length, take, drop, replicate, IsUtf8};
ghost use Rattle.group_history.specs.Inside.Fronts.{front_of, AreBytes};

use std::str;

/// The first `len` bytes are the text, the others are zeros.
#[derive(Clone, Copy)]
pub(super) struct Packed<const N: usize> {
    len: u8,
    bytes: [u8; N],
    ghost fits: { len ≤ N },
    ghost text: { ∥ IsUtf8 (take len bytes) ∥₁ },
    ghost zeros: { drop len bytes ≡ replicate (N - len) 0 },
}

impl<const N: usize> Packed<N> {
    /// A copy of `text`.
    pub(super) fn new(text: &str) -> Packed<N>
        requires fits { length text.now ≤ N }
        requires counts { N < 256 }
        ensures { take result.len result.bytes ≡ text.now }
    {
        let mut bytes = [0; N];
        copy_in(&mut bytes, text.as_bytes());
        Packed {
            len: text.len() as u8,
            bytes,
        }
    }

    /// The number of its first bytes.
    #[inline]
    pub(super) fn front(&self) -> u128
        requires { 16 ≤ N }
        ensures front { result ≡ front_of (take self.now.len self.now.bytes) }
        ensures bytes { AreBytes (take self.now.len self.now.bytes) }
    {
        front_of_room(&self.bytes)
    }

    /// The text.
    #[inline]
    pub(super) fn as_str(&self) -> &str
        ensures { result.now ≡ take self.now.len self.now.bytes }
    {
        unsafe { str::from_utf8_unchecked(&self.bytes[..self.len as usize]) }
    }
}

/// The number of a text's first bytes.
pub(super) fn front_of_bytes(text: &[u8]) -> u128
    ensures front { result ≡ front_of text.now }
    ensures bytes { AreBytes text.now }
{
    let mut bytes = [0; 16];
    let len = text.len().min(16);
    copy_in(&mut bytes, &text[..len]);
    front_of_room(&bytes)
}

/// The number of the first bytes of a text that lies in such room.
fn front_of_room(room: &[u8]) -> u128
    requires { 16 ≤ length room.now }
    ensures front { result ≡ front_of room.now }
    ensures bytes { AreBytes room.now }
{
    match room.first_chunk::<16>() {
        Some(front) => u128::from_be_bytes(*front),
        None => unreachable!(),
    }
}

/// Writes `source` over the first bytes of `room`.
fn copy_in(room: &mut [u8], source: &[u8])
    requires { length source.now ≤ length room.old }
    ensures front { take (length source.now) room.new ≡ source.now }
    ensures rest { drop (length source.now) room.new ≡ drop (length source.now) room.old }
    ensures len { length room.new ≡ length room.old }
{
    room[..source.len()].copy_from_slice(source);
}
