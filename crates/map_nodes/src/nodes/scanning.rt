//! Scans of a draft's chunks.
ghost use Rattle.std.specs.Prelude.{◌≡◌, ◌⊎◌, length, T, IfErr};
ghost use Rattle.group_history.specs.Rows.{rises, paired};
ghost use Rattle.group_history.specs.declared.mutators.Stop.TheVariants.{NoMemory};
ghost use Rattle.map_chunks.specs.Places.{Grows, AreAll, places_of};
ghost use Rattle.map_nodes.specs.Inside.Freezing.{child_places, kids_places};
ghost use Rattle.map_chunks.specs.Shown.{shown, IsTree, rows_or};
ghost use Rattle.map_chunks.specs.Scanning.{taken, Gave};
ghost use Rattle.map_nodes.specs.Inside.Scanning.{kid_shown, kids_shown};

use super::{Body, OwnChild, OwnNode};
use group_history::{Scan, Stop, Text};
use map_chunks::scanning::{is_over, lowest, scan_placed, scan_rows};
use map_chunks::search::place_of;
use map_chunks::{Chunks, TakesRows};

// Children of a chunk, and their first keys.
#[derive(Clone, Copy)]
struct OwnKids<'a> {
    firsts: &'a [Text],
    kids: &'a [OwnChild],
}

impl OwnNode {
    /// Takes the scan's rows of the chunk, and answers the room that is left. Stops for want of memory, or as
    /// the store does; the sink has then a beginning of these rows.
    #[cycle(own)]
    pub fn scan<C: Chunks, S: TakesRows>(
        &self,
        chunks: &mut C,
        scan: &Scan,
        room: Option<u64>,
        sink: &mut S,
    ) -> Result<Option<u64>, Stop>
        requires places { AreAll (C.places chunks.old) (places_of self.now.pieces) }
        requires tree { IsTree (shown (C.contents chunks.old) self.now.pieces) }
        ensures grown { Grows C.contents C.places chunks.old chunks.new }
        ensures rows { Gave S.has sink.old sink.new room result
            (taken scan.now room (rows_or (shown (C.contents chunks.old) self.now.pieces))) }
        ensures stopped { IfErr result (λ s. (s ≡ NoMemory) ⊎ C.stops s) }
    {
        match &self.body {
            Body::Leaf(values) => {
                let left = scan_rows(self.keys.as_slice(), values, scan, room, sink)?;
                return Ok(left);
            }
            Body::Inner(kids) => {
                let below = OwnKids {
                    firsts: self.keys.as_slice(),
                    kids,
                };
                return scan_kids(chunks, below, scan, room, sink);
            }
        }
    }
}

#[cycle(own)]
fn scan_kids<C: Chunks, S: TakesRows>(
    chunks: &mut C,
    below: OwnKids<'_>,
    scan: &Scan,
    room: Option<u64>,
    sink: &mut S,
) -> Result<Option<u64>, Stop>
    requires places { AreAll (C.places chunks.old) (kids_places below.kids.now) }
    requires order { T (rises below.firsts.now) }
    requires kids { length below.kids.now ≡ length below.firsts.now }
    requires tree { IsTree (kids_shown (C.contents chunks.old) (paired below.firsts.now below.kids.now)) }
    ensures grown { Grows C.contents C.places chunks.old chunks.new }
    ensures rows { Gave S.has sink.old sink.new room result
        (taken scan.now room (rows_or (kids_shown (C.contents chunks.old)
        (paired below.entry.firsts.now below.entry.kids.now)))) }
    ensures stopped { IfErr result (λ s. (s ≡ NoMemory) ⊎ C.stops s) }
{
    if below.firsts.is_empty() {
        return Ok(room);
    }
    let mut left = room;
    for place in place_of(below.firsts, lowest(scan).as_str())..below.firsts.len() {
        if is_over(scan, left, &below.firsts[place]) {
            return Ok(left);
        }
        left = scan_kid(chunks, &below.kids[place], scan, left, sink)?;
    }
    Ok(left)
}

#[cycle(own)]
fn scan_kid<C: Chunks, S: TakesRows>(
    chunks: &mut C,
    kid: &OwnChild,
    scan: &Scan,
    room: Option<u64>,
    sink: &mut S,
) -> Result<Option<u64>, Stop>
    requires places { AreAll (C.places chunks.old) (child_places kid.now) }
    requires tree { IsTree (kid_shown (C.contents chunks.old) kid.now) }
    ensures grown { Grows C.contents C.places chunks.old chunks.new }
    ensures rows { Gave S.has sink.old sink.new room result
        (taken scan.now room (rows_or (kid_shown (C.contents chunks.old) kid.now))) }
    ensures stopped { IfErr result (λ s. (s ≡ NoMemory) ⊎ C.stops s) }
{
    match kid {
        OwnChild::Placed(at) => scan_placed(chunks, *at, scan, room, sink),
        OwnChild::Own(node) => node.scan(chunks, scan, room, sink),
    }
}
