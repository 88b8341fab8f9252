//! Scans of a trail. Each step's children are scanned in order, and the trail below it in its turn.
ghost use Rattle.std.specs.Prelude.{◌≡◌, ◌⊎◌, ◌<◌, ◌∷◌, length, reverse, IfErr};
ghost use Rattle.std.specs.Arc.{arc_value};
ghost use Rattle.group_history.specs.Rows.{paired};
ghost use Rattle.group_history.specs.declared.mutators.Stop.TheVariants.{NoMemory};
ghost use Rattle.map_chunks.specs.Places.{Grows, AreAll, places_of};
ghost use Rattle.map_chunks.specs.Scanning.{taken, Gave};
ghost use Rattle.map_chunks.specs.Shown.{shown, IsTree, rows_or};
ghost use Rattle.map_nodes.specs.Inside.Freezing.{child_places, kids_places};
ghost use Rattle.map_nodes.specs.Inside.Scanning.{kid_shown, kids_shown, step_kid};
ghost use Rattle.map_nodes.specs.Trails.{step_kids, steps_seen, AreSteps, IsTrail};

use super::{End, Step, Trail};
use group_history::{Scan, Stop};
use map_chunks::scanning::{is_over, lowest, scan_placed, scan_rows};
use map_chunks::search::place_of;
use map_chunks::{Chunks, TakesRows};

// A trail, or what is left of it below a step.
#[derive(Clone, Copy)]
struct Rest<'a> {
    steps: &'a [Step],
    end: &'a End,
}

// A step, and the trail below it.
#[derive(Clone, Copy)]
struct Way<'a> {
    step: &'a Step,
    rest: &'a [Step],
    end: &'a End,
}

// The child of a step at a place: the trail below, or a placed chunk.
#[derive(Clone, Copy)]
struct StepChild<'a> {
    way: Way<'a>,
    place: usize,
}

impl Trail {
    /// Takes the scan's rows of the trail, and answers the room that is left. Stops for want of memory, or as
    /// the store does; the sink has then a beginning of these rows.
    pub fn scan<C: Chunks, S: TakesRows>(
        &self,
        chunks: &mut C,
        scan: &Scan,
        room: Option<u64>,
        sink: &mut S,
    ) -> Result<Option<u64>, Stop>
        requires places { AreAll (C.places chunks.old) (places_of self.now.pieces) }
        requires tree { IsTree (shown (C.contents chunks.old) self.now.pieces) }
        ensures grown { Grows C.contents C.places chunks.old chunks.new }
        ensures rows { Gave S.has sink.old sink.new room result
            (taken scan.now room (rows_or (shown (C.contents chunks.old) self.now.pieces))) }
        ensures stopped { IfErr result (λ s. (s ≡ NoMemory) ⊎ C.stops s) }
    {
        let rest = Rest {
            steps: &self.steps,
            end: &self.end,
        };
        scan_steps(chunks, rest, scan, room, sink)
    }
}

// Takes the scan's rows of a trail.
#[cycle(walk)]
fn scan_steps<C: Chunks, S: TakesRows>(
    chunks: &mut C,
    rest: Rest<'_>,
    scan: &Scan,
    room: Option<u64>,
    sink: &mut S,
) -> Result<Option<u64>, Stop>
    requires trail { AreSteps rest.steps.now rest.end.now }
    requires places { AreAll (C.places chunks.old) (places_of (steps_seen rest.steps.now rest.end.now).pieces) }
    requires tree { IsTree (shown (C.contents chunks.old) (steps_seen rest.steps.now rest.end.now).pieces) }
    ensures grown { Grows C.contents C.places chunks.old chunks.new }
    ensures rows { Gave S.has sink.old sink.new room result
        (taken scan.now room (rows_or (shown (C.contents chunks.old)
        (steps_seen rest.entry.steps.now rest.entry.end.now).pieces))) }
    ensures stopped { IfErr result (λ s. (s ≡ NoMemory) ⊎ C.stops s) }
{
    let Rest { steps, end } = rest;
    let Some((step, rest)) = steps.split_last() else {
        let left = scan_rows(end.keys.as_slice(), &end.values, scan, room, sink)?;
        return Ok(left);
    };
    let way = Way { step, rest, end };
    scan_children(chunks, way, scan, room, sink)
}

// Takes the scan's rows of a step's children.
#[cycle(walk)]
fn scan_children<C: Chunks, S: TakesRows>(
    chunks: &mut C,
    way: Way<'_>,
    scan: &Scan,
    room: Option<u64>,
    sink: &mut S,
) -> Result<Option<u64>, Stop>
    requires trail { IsTrail (way.step.now ∷ reverse way.rest.now) way.end.now }
    requires places { AreAll (C.places chunks.old)
        (kids_places (step_kids way.step.now (steps_seen way.rest.now way.end.now))) }
    requires tree { IsTree (kids_shown (C.contents chunks.old) (paired (arc_value way.step.now.keys)
        (step_kids way.step.now (steps_seen way.rest.now way.end.now)))) }
    ensures grown { Grows C.contents C.places chunks.old chunks.new }
    ensures rows { Gave S.has sink.old sink.new room result
        (taken scan.now room (rows_or (kids_shown (C.contents chunks.old) (paired (arc_value way.entry.step.now.keys)
        (step_kids way.entry.step.now (steps_seen way.entry.rest.now way.entry.end.now)))))) }
    ensures stopped { IfErr result (λ s. (s ≡ NoMemory) ⊎ C.stops s) }
{
    let firsts = way.step.keys.as_slice();
    let mut left = room;
    for place in place_of(firsts, lowest(scan).as_str())..firsts.len() {
        if is_over(scan, left, &firsts[place]) {
            return Ok(left);
        }
        let child = StepChild { way, place };
        left = scan_child(chunks, child, scan, left, sink)?;
    }
    Ok(left)
}

// Takes the scan's rows of a step's child.
#[cycle(walk)]
fn scan_child<C: Chunks, S: TakesRows>(
    chunks: &mut C,
    child: StepChild<'_>,
    scan: &Scan,
    room: Option<u64>,
    sink: &mut S,
) -> Result<Option<u64>, Stop>
    requires trail { IsTrail (child.way.step.now ∷ reverse child.way.rest.now) child.way.end.now }
    requires within { child.place < length child.way.step.now.children.items }
    requires places { AreAll (C.places chunks.old)
        (child_places (step_kid child.way.step.now (steps_seen child.way.rest.now child.way.end.now) child.place)) }
    requires tree { IsTree (kid_shown (C.contents chunks.old)
        (step_kid child.way.step.now (steps_seen child.way.rest.now child.way.end.now) child.place)) }
    ensures grown { Grows C.contents C.places chunks.old chunks.new }
    ensures rows { Gave S.has sink.old sink.new room result
        (taken scan.now room (rows_or (kid_shown (C.contents chunks.old) (step_kid child.entry.way.step.now
        (steps_seen child.entry.way.rest.now child.entry.way.end.now) child.entry.place)))) }
    ensures stopped { IfErr result (λ s. (s ≡ NoMemory) ⊎ C.stops s) }
{
    let StepChild { way, place } = child;
    if place == way.step.place {
        let rest = Rest {
            steps: way.rest,
            end: way.end,
        };
        return scan_steps(chunks, rest, scan, room, sink);
    }
    scan_placed(chunks, way.step.children[place], scan, room, sink)
}
