//! The keys of a draft's chunk: shared with the chunk that it was copied from, until they change.
ghost use Rattle.std.specs.Prelude.{◌≡◌, ◌<◌, ◌≤◌, ◌+◌, true, [], length, take, drop, IfOk, OnOk, slice_get, slice_set};
ghost use Rattle.std.specs.Prelude.{vec_items, vec_len, vec_capacity};
ghost use Rattle.std.specs.List.{insert, remove};
ghost use Rattle.std.specs.Arc.{arc_value};

mod sharing;

use group_history::{Keys, Text};
use std::alloc::{AllocError, Global};
use std::marker::Model;
use std::sync::Arc;

/// The keys of a chunk that a draft owns, of whatever number: a chunk has at most 16, and 17 while it is
/// changed. Only `into_keys` asks that they are in strict order.
#[derive(Drop)]
pub struct NodeKeys {
    texts: Texts,
}

#[derive(Drop)]
enum Texts {
    Shared(Arc<Keys>),
    Own(Vec<Text>),
}

impl Model for NodeKeys {
    ghost use Rattle.map_chunks.specs.KeysSeen.{KeysSeen};

    ghost Value = { KeysSeen };

    ghost use Rattle.map_chunks.specs.Keys.{texts_of, is_own, room_of};

    ghost view = { λ k. record { texts = texts_of k.texts; own = is_own k.texts; room = room_of k.texts } };
}

impl NodeKeys {
    /// The keys of a placed chunk, not copied.
    pub fn shared(keys: Arc<Keys>) -> NodeKeys
        ensures { result.texts ≡ arc_value keys }
    {
        NodeKeys {
            texts: Texts::Shared(keys),
        }
    }

    /// A list of the chunk's own.
    pub fn own(texts: Vec<Text>) -> NodeKeys
        ensures { result.texts ≡ texts.items }
    {
        NodeKeys {
            texts: Texts::Own(texts),
        }
    }

    /// The keys in their order.
    pub fn as_slice(&self) -> &[Text]
        ensures { result.now ≡ self.now.texts }
    {
        match &self.texts {
            Texts::Shared(keys) => keys.as_slice(),
            Texts::Own(texts) => texts,
        }
    }

    /// Makes the list the chunk's own, with room for one key more.
    pub fn make_room(&mut self, alloc: Global) -> Result<(), AllocError>
        ensures texts { self.new.texts ≡ self.old.texts }
        ensures room { OnOk result (0 < self.new.room) }
    {
        match &mut self.texts {
            Texts::Shared(keys) => {
                let mut texts = copied(alloc, keys.as_slice())?;
                texts.reserve(1)?;
                self.texts = Texts::Own(texts);
                Ok(())
            }
            Texts::Own(texts) => {
                texts.reserve(1)?;
                Ok(())
            }
        }
    }

    /// Puts another key in the place of one.
    pub fn set(&mut self, place: usize, text: Text)
        requires room { 0 < self.old.room }
        requires within { place < length self.old.texts }
        ensures texts { self.new.texts ≡ slice_set self.old.texts place text }
        ensures room { self.new.room ≡ self.old.room }
    {
        match &mut self.texts {
            Texts::Shared(_) => {}
            Texts::Own(texts) => texts[place] = text,
        }
    }

    /// Puts a key before the one at the place.
    pub fn insert(&mut self, place: usize, text: Text)
        requires room { 0 < self.old.room }
        requires within { place ≤ length self.old.texts }
        ensures texts { self.new.texts ≡ insert self.old.texts place text }
        ensures own { self.new.own ≡ true }
    {
        match &mut self.texts {
            Texts::Shared(_) => {}
            Texts::Own(texts) => {
                let _ = texts.insert(place, text);
            }
        }
    }

    /// Takes the key at the place out.
    pub fn remove(&mut self, place: usize)
        requires room { 0 < self.old.room }
        requires within { place < length self.old.texts }
        ensures texts { self.new.texts ≡ remove self.old.texts place }
    {
        match &mut self.texts {
            Texts::Shared(_) => {}
            Texts::Own(texts) => {
                let _ = texts.remove(place);
            }
        }
    }

    /// Moves the keys from the place 8 on.
    pub(crate) fn split(&mut self, right: Vec<Text>) -> NodeKeys
        requires empty { right.items ≡ [] }
        requires room { 9 ≤ vec_capacity right }
        requires own { self.old.own ≡ true }
        requires len { length self.old.texts ≡ 17 }
        ensures left { self.new.texts ≡ take 8 self.old.texts }
        ensures right { result.texts ≡ drop 8 self.old.texts }
    {
        let mut right = right;
        match &mut self.texts {
            Texts::Shared(_) => return NodeKeys::own(right),
            Texts::Own(texts) => {
                move_tail(texts, &mut right);
                return NodeKeys::own(right);
            }
        }
    }
}

fn copied(alloc: Global, texts: &[Text]) -> Result<Vec<Text>, AllocError>
    ensures { IfOk result (λ copy. copy.items ≡ texts.now) }
{
    let mut copy = Vec::with_capacity(alloc, ROOM)?;
    for text in texts {
        copy.push(text.clone()?)?;
    }
    Ok(copy)
}

/// The second of the keys, if there are two.
pub fn second_of(keys: &[Text]) -> Result<Option<Text>, AllocError>
    ensures { IfOk result (λ key. key ≡ slice_get keys.now 1) }
{
    if keys.len() < 2 {
        return Ok(None);
    }
    Ok(Some(keys[1].clone()?))
}

/// So many entries a chunk has at most, while it is changed.
pub const ROOM: usize = 17;

/// So many entries the first half of a chunk has that is split.
pub(crate) const FIRST_HALF: usize = 8;

/// Moves what stands from the place 8 on.
pub(crate) fn move_tail<T: Drop>(left: &mut Vec<T>, right: &mut Vec<T>)
    requires long { 8 ≤ length left.old.items }
    requires empty { right.old.items ≡ [] }
    requires room { length left.old.items ≤ vec_capacity right.old + 8 }
    ensures left { left.new.items ≡ take 8 left.old.items }
    ensures right { right.new.items ≡ drop 8 left.old.items }
{
    // The last one comes first, so they are turned round at the end.
    while left.len() > FIRST_HALF {
        if let Some(last) = left.pop() {
            let _ = right.push(last);
        }
    }
    right.reverse();
}
