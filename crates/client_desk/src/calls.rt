//! The calls at a place.
use group_history::{Json, Ran, Scan};
use pull_patch::Write;
use rebase::{Mutate, Uuid};

/// Under which number something is kept.
#[derive(Clone, Copy)]
pub enum Keep {
    /// Under this one. What was kept there is given up first.
    At(usize),
    /// Under the first one that has nothing.
    AtNext,
}

/// A call at a place, with what it is given.
#[derive(Clone, Copy)]
pub enum DeskCall<'a> {
    /// A client of this ID sits down.
    Sit(&'a Uuid),
    /// It leaves.
    Leave,
    /// The value at a key.
    Get(&'a str),
    /// Whether the key is there.
    Has(&'a str),
    /// The rows of a scan.
    Scan(&'a Scan),
    /// Whether no key is there.
    Empty,
    /// The pending mutations of the group.
    Pending,
    /// The cookie of the last pull that was applied.
    Cookie,
    /// Whether the group is closed.
    Closed,
    /// The body of a push, but for the oldest so many pending mutations.
    Push(usize),
    /// How many slots are free.
    Slots,
    /// The number of the moment: the same number, the same state; a later state, a greater one.
    Moment,
    /// What the server last sent at a key.
    PulledGet(&'a str),
    /// The rows of a scan of what the server last sent.
    PulledScan(&'a Scan),
    /// A reading begins: until it ends, queries are answered as of its moment, and no other call is made.
    BeginRead,
    /// It ends.
    EndRead,
    /// The client's last id is read anew.
    Refresh,
    /// A pull begins, and its ticket is kept.
    Begin(Keep),
    /// A ticket is given up.
    Forget(usize),
    /// A pull ends: its ticket, and the bytes of the response.
    End(usize, &'a [u8]),
    /// A mutation is made.
    Mutate(Mutate<'a>),
    /// A scan is watched, and the watch is kept.
    Watch(Keep, &'a Scan),
    /// A watch is polled.
    Poll(usize),
    /// A watch is polled for what changed: each row that is new, gone or has another value.
    PollChanges(usize),
    /// A watch is given up.
    Unwatch(usize),
    /// Where a change asks for a run: the name of its mutator, and the reason of the run.
    AskedName,
    /// The arguments of the run.
    AskedArgs,
    /// All of the run in one: the mutation as a push lists it, and the reason.
    AskedRun,
    /// The value at a key of the run's map.
    DraftGet(&'a str),
    /// Whether the key is there.
    DraftHas(&'a str),
    /// The rows of a scan of it.
    DraftScan(&'a Scan),
    /// A value is put at a key of the run's map.
    DraftPut(&'a str, &'a Json),
    /// A key is taken out of it.
    DraftDel(&'a str),
    /// Puts and dels, in the order of the list, on the run's map. Where one is refused, those before it are written.
    DraftWrites(&'a [Write]),
    /// The run ended so.
    Ran(Ran),
    /// The change is given up.
    GiveUp,
}
