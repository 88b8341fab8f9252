//! What the upper half of a chunk needs, taken before anything changes.
ghost use Rattle.std.specs.Prelude.{length, IfOk};
ghost use Rattle.map_nodes.specs.Inside.Halves.{AreNinth};
ghost use Rattle.map_nodes.specs.Inside.Ready.{HasRoom, IsRoomTaken};

use super::super::homes::take_home;
use super::super::{OwnChild, OwnNode};
use super::leaves::ninth_copies;
use group_history::Text;
use map_chunks::entries::{SpareChunk, take_spare};
use std::alloc::{AllocError, Global};

/// Copies of the upper half's first key, and room for it.
#[derive(Drop)]
pub(crate) struct SplitBuffers<T> {
    pub(crate) firsts: Vec<Text>,
    pub(crate) spare: SpareChunk<T>,
    pub(crate) home: Option<Box<OwnNode>>,
}

/// Room for the upper half, where the key is put before the place.
pub(crate) fn take_half_room<T: Drop>(
    alloc: Global,
    keys: &[Text],
    place: usize,
    key: &Text,
    copies: usize,
) -> Result<SplitBuffers<T>, AllocError>
    ensures firsts { IfOk result (λ r. AreNinth copies keys.now place key.now r.firsts.items) }
    ensures room { IfOk result (HasRoom (length keys.now)) }
{
    let firsts = ninth_copies(alloc, keys, place, key, copies)?;
    let spare = take_spare(alloc, keys.len())?;
    let home = take_home(alloc, keys.len())?;
    Ok(SplitBuffers {
        firsts,
        spare,
        home,
    })
}

impl SplitBuffers<OwnChild> {
    /// What was taken, or room for nothing.
    pub(crate) fn opened(
        taken: Option<Box<SplitBuffers<OwnChild>>>,
        alloc: Global,
    ) -> SplitBuffers<OwnChild>
        ensures { IsRoomTaken taken result }
    {
        if let Some(taken) = taken {
            return Box::into_inner(taken);
        }
        SplitBuffers {
            firsts: Vec::new(alloc),
            spare: SpareChunk {
                keys: Vec::new(alloc),
                entries: Vec::new(alloc),
            },
            home: None,
        }
    }
}
