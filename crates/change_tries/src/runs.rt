//! A run that a change asks its caller for, and what is next for a change.
//!
//! What a run reads is placed, or of the draft before it, and stays so while the seat's pin is held.
ghost use Rattle.std.specs.Prelude.{ℕ, ◌≡◌, [], ◌++◌, ◌⊎◌, IfOk, IfErr, OnOk, OnErr, length};
ghost use Rattle.std.specs.FinMap as finite;
ghost use Rattle.group_history.specs.Scans.{rows_of};
ghost use Rattle.head_word.specs.Books.{drawn};
ghost use Rattle.change_tries.specs.Missing.{IsStoreOrMemory};
ghost use Rattle.change_tries.specs.Runs.{HasMap, IsSameRun, run_map, run_start};

use crate::places::At;
use crate::proposing::Proposal;
use change_drafts::{Key, RunMap, Tip};
use chunk_slots::Slots;
use commit_graph::StoreNodes;
use group_history::{Json, Means, Mutation, Ran, Refusal, Scan, Text};
use map_chunks::Draft;
use map_tree::Tree;
use std::alloc::{AllocError, Global};
use std::marker::{Brand, Model};

/// What is drafted, and the newest commit there; and whether the next one is to tell each client's last id.
#[derive(Drop)]
pub struct Chain {
    pub draft: Draft,
    pub tip: Tip,
    pub tells: bool,
}

/// A run that a change asks for: on what it stands, the mutations that were run there, in order, its own mutation, its
/// map, and the mutations to be run behind it, the last one first.
#[derive(Drop)]
pub struct AskedRun {
    pub chain: Chain,
    pub ran: Vec<Mutation>,
    pub mutation: Mutation,
    pub map: RunMap,
    pub behind: Vec<Mutation>,
}

/// A run that a change asks for, in memory of its own: so what is next for a change is small where no run is asked for.
#[derive(Drop)]
pub struct BoxedRun {
    inner: Box<AskedRun>,
}

impl Model for BoxedRun {
    ghost use Rattle.std.specs.Coded.{codes};
    ghost use Rattle.change_tries.specs.contracts.runs.AskedRun as asked_run;
    ghost use Rattle.change_tries.specs.declared.runs.AskedRun.{AskedRun as Asked};

    ghost Value = { Asked };

    ghost coded = { Prim.hlevel (codes, asked_run.the_row.coded) };

    ghost view = { λ boxed. boxed.inner.value };
}

impl BoxedRun {
    pub(crate) fn new(alloc: Global, run: AskedRun) -> Result<BoxedRun, AllocError>
        ensures { IfOk result (λ boxed. boxed ≡ run) }
    {
        let inner = Box::new(alloc, run)?;
        Ok(BoxedRun { inner })
    }

    /// The run.
    pub fn as_run(&self) -> &AskedRun
        ensures { result.now ≡ self.now }
    {
        &self.inner
    }

    pub(crate) fn into_run(self) -> AskedRun
        ensures { result ≡ self }
    {
        Box::into_inner(self.inner)
    }
}

/// A run that the caller was asked for, and how it ended.
#[derive(Drop)]
pub(crate) struct EndedRun {
    pub(crate) run: BoxedRun,
    pub(crate) ran: Ran,
}

/// Mutations that stay pending, so far as they were run: these, in order, and the map that they left; and those to be
/// run, the last one first.
#[derive(Drop)]
pub(crate) struct Replaying {
    pub(crate) chain: Chain,
    pub(crate) ran: Vec<Mutation>,
    pub(crate) tree: Tree,
    pub(crate) behind: Vec<Mutation>,
}

/// What is next for a change.
#[derive(Drop)]
pub enum NextStep {
    /// A run of a mutator.
    Run(BoxedRun),

    /// The change is drafted whole: the head is to be moved.
    Move(Proposal),

    /// Nothing is to be changed.
    Same,
}

/// The value at a key of the run's map; none where the key is not there.
pub fn get<'a, M: Means, S: Slots<M>>(
    at: &At<'a, M, S>,
    run: &AskedRun,
    key: &str,
) -> Result<Option<Json>, Refusal>
    requires map { HasMap (drawn at.now.mark.log) run.now }
    requires behind { run.now.chain.draft.first ≡ length (drawn at.now.mark.log) }
    ensures value { IfOk result (λ found. found ≡ finite.get (run_map (drawn at.now.mark.log) run.now) key.now) }
    ensures err { IfErr result (IsStoreOrMemory S.reused) }
{
    let draft = &run.chain.draft;
    run.map
        .get_on::<StoreNodes<'a, M, S>, Brand>(at.nodes(), draft, Key { text: key })
}

/// The pairs of the run's map that the scan asks for, in the order of their keys.
pub fn scan<'a, M: Means, S: Slots<M>>(
    at: &At<'a, M, S>,
    run: &AskedRun,
    scan: &Scan,
) -> Result<Vec<(Text, Json)>, Refusal>
    requires map { HasMap (drawn at.now.mark.log) run.now }
    requires behind { run.now.chain.draft.first ≡ length (drawn at.now.mark.log) }
    ensures rows { IfOk result (λ rows. rows.items ≡ rows_of scan.now (run_map (drawn at.now.mark.log) run.now)) }
    ensures err { IfErr result (IsStoreOrMemory S.reused) }
{
    let group = at.group;
    let alloc = group.shared.alloc;
    let draft = &run.chain.draft;
    run.map
        .scan_on::<StoreNodes<'a, M, S>, Brand>(alloc, at.nodes(), draft, scan)
}

/// Afterwards the key has the value in the run's map.
pub fn put<'a, M: Means, S: Slots<M>>(
    at: &At<'a, M, S>,
    run: &mut BoxedRun,
    key: &str,
    value: &Json,
) -> Result<(), Refusal>
    requires map { HasMap (drawn at.now.mark.log) run.old }
    requires behind { run.old.chain.draft.first ≡ length (drawn at.now.mark.log) }
    ensures map { HasMap (drawn at.now.mark.log) run.new }
    ensures same { IsSameRun run.old run.new }
    ensures start { run_start (drawn at.now.mark.log) run.new ≡ run_start (drawn at.now.mark.log) run.old }
    ensures ok { OnOk result (run_map (drawn at.now.mark.log) run.new
        ≡ finite.insert (run_map (drawn at.now.mark.log) run.old) key.now value.now) }
    ensures left { OnErr result (run.new.map.tree ≡ run.old.map.tree) }
    ensures err { IfErr result (IsStoreOrMemory S.reused) }
{
    let group = at.group;
    let alloc = group.shared.alloc;
    let asked: &mut AskedRun = &mut run.inner;
    let draft = &asked.chain.draft;
    asked
        .map
        .put_on::<StoreNodes<'a, M, S>, Brand>(alloc, at.nodes(), draft, Key { text: key }, value)
}

/// Afterwards the key is not there in the run's map, whether or not it was.
pub fn del<'a, M: Means, S: Slots<M>>(
    at: &At<'a, M, S>,
    run: &mut BoxedRun,
    key: &str,
) -> Result<(), Refusal>
    requires map { HasMap (drawn at.now.mark.log) run.old }
    requires behind { run.old.chain.draft.first ≡ length (drawn at.now.mark.log) }
    ensures map { HasMap (drawn at.now.mark.log) run.new }
    ensures same { IsSameRun run.old run.new }
    ensures start { run_start (drawn at.now.mark.log) run.new ≡ run_start (drawn at.now.mark.log) run.old }
    ensures ok { OnOk result (run_map (drawn at.now.mark.log) run.new
        ≡ finite.remove (run_map (drawn at.now.mark.log) run.old) key.now) }
    ensures left { OnErr result (run.new.map.tree ≡ run.old.map.tree) }
    ensures err { IfErr result (IsStoreOrMemory S.reused) }
{
    let group = at.group;
    let alloc = group.shared.alloc;
    let asked: &mut AskedRun = &mut run.inner;
    let draft = &asked.chain.draft;
    asked
        .map
        .del_on::<StoreNodes<'a, M, S>, Brand>(alloc, at.nodes(), draft, Key { text: key })
}
