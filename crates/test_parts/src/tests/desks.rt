//! Calls of a place at one group whose host makes each run: what each comes to, and what it tells.
ghost use Rattle.std.specs.Prelude.{false, refl};
ghost use Rattle.group_history.specs.Meaning.{unknown};
ghost use Rattle.client_desk.specs.Drafts.{HasRunAsMeant};

use client_desk::{DeskCall, HostRuns, Hosted, Keep, Mutate, Place, Write};
use group_history::{Json, Means, Ran, Reason, Refusal, Scan, Start, Stop, Text, WriteView};
use rebase::{Arena, Config, Group, Has, Identity, Runs, Uuid};
use std::alloc::Global;
use std::prelude::*;
use std::sync::Arc;
use test_group::A;

const GROUP: &str = "00000000-0000-4000-8000-000000000001";

/// Mutators of which the group has none itself, and that know no name.
#[derive(Drop)]
struct Others;

impl Means for Others {
    ghost means = { λ name args why map. unknown };
}

impl Has for Others {
    ghost has = { λ name. false };
}

impl Hosted for Others {
    ghost had = { λ name. false };
}

impl HostRuns for Others {
    ghost same = { refl };
}

impl Runs for Others {
    fn run_if_any<V: WriteView>(
        &self,
        _alloc: Global,
        _name: &str,
        _args: &Json,
        _why: Reason,
        _view: &mut V,
    ) -> Result<Option<Ran>, Stop> {
        Ok(None)
    }
}

/// A place of a new group.
fn new_place(alloc: Global) -> Result<Place<Others>, Refusal> {
    let identity = Identity::new(alloc, GROUP, "p1", "s1")?;
    let Ok(config) = Config::new(identity, 256, 1) else {
        return Err(Refusal::Full);
    };
    let opened = Group::<Others, Arena<Others>>::open(alloc, config, Others, ());
    let (group, seats) = opened?;
    let mut seats = seats;
    let group = Arc::new(alloc, group)?;
    let seat = seats.take()?;
    Ok(Place::new(alloc, group, seat))
}

/// Makes a call, and writes down the number of what it came to, and the bytes that it told.
fn make<M: HostRuns>(
    place: &mut Place<M>,
    call: DeskCall<'_>,
    said: &mut Vec<u8>,
) -> Result<(), Refusal>
    requires { HasRunAsMeant M.had M.means place.old call }
{
    let alloc = said.allocator().clone()?;
    let mut bytes = Vec::new(alloc);
    let outcome = place.call(call, &mut bytes);
    let number = format!(in alloc; "{} ", outcome.number())?;
    said.extend_from_slice(number.as_bytes())?;
    said.extend_from_slice(&bytes)?;
    Ok(said.push(b'\n')?)
}

/// Makes a pull, whose request is not written down.
fn pull(place: &mut Place<Others>, body: &str, said: &mut Vec<u8>) -> Result<(), Refusal> {
    let mut request = Vec::new(said.allocator().clone()?);
    drop(place.call(DeskCall::Begin(Keep::At(0)), &mut request));
    make(place, DeskCall::End(0, body.as_bytes()), said)
}

fn whole(alloc: Global) -> Result<Scan, Refusal> {
    Ok(Scan {
        prefix: Text::new(alloc, "")?,
        start: Start::Any,
        limit: None,
    })
}

fn sit(place: &mut Place<Others>, said: &mut Vec<u8>) -> Result<(), Refusal> {
    let Ok(id) = Uuid::parse_str(A) else {
        return Err(Refusal::BadShape);
    };
    make(place, DeskCall::Sit(&id), said)
}

fn polls(alloc: Global, place: &mut Place<Others>) -> Result<Vec<u8>, Refusal> {
    let mut said = Vec::new(alloc);
    sit(place, &mut said)?;
    make(
        place,
        DeskCall::Watch(Keep::AtNext, &whole(alloc)?),
        &mut said,
    )?;
    make(place, DeskCall::PollChanges(0), &mut said)?;
    let body = r#"{"cookie":1,"lastMutationIDChanges":{},"patch":[
        {"op":"put","key":"b","value":2},{"op":"put","key":"a","value":1}]}"#;
    pull(place, body, &mut said)?;
    make(place, DeskCall::PollChanges(0), &mut said)?;
    let body = r#"{"cookie":2,"lastMutationIDChanges":{},"patch":[
        {"op":"put","key":"c","value":4},{"op":"put","key":"b","value":3},{"op":"del","key":"a"}]}"#;
    pull(place, body, &mut said)?;
    make(place, DeskCall::PollChanges(0), &mut said)?;
    make(place, DeskCall::PollChanges(0), &mut said)?;
    make(place, DeskCall::Poll(0), &mut said)?;
    make(place, DeskCall::PollChanges(1), &mut said)?;
    make(place, DeskCall::BeginRead, &mut said)?;
    make(place, DeskCall::PollChanges(0), &mut said)?;
    Ok(said)
}

#[test]
fn a_poll_tells_what_changed(rt: HostRuntime) -> Result<(), Refusal> {
    let alloc = rt.alloc();
    let mut place = new_place(alloc)?;
    let said = polls(alloc, &mut place);
    drop(place.close());
    let right = "0 \n0 \n0 []\n0 \n\
        0 [{\"key\":\"a\",\"newValue\":1,\"op\":\"add\"},{\"key\":\"b\",\"newValue\":2,\"op\":\"add\"}]\n0 \n\
        0 [{\"key\":\"a\",\"oldValue\":1,\"op\":\"del\"},\
        {\"key\":\"b\",\"newValue\":3,\"oldValue\":2,\"op\":\"change\"},\
        {\"key\":\"c\",\"newValue\":4,\"op\":\"add\"}]\n1 \n1 \n-105 \n0 \n-112 \n";
    assert!(rt; said?.as_slice() == right.as_bytes());
    Ok(())
}

fn put(alloc: Global, key: &str, value: &str) -> Result<Write, Refusal> {
    let key = Text::new(alloc, key)?;
    Ok(Write::Put(key, Json::read(alloc, value.as_bytes())?))
}

fn writes(alloc: Global, place: &mut Place<Others>) -> Result<Vec<u8>, Refusal> {
    let mut said = Vec::new(alloc);
    let mut writes = Vec::new(alloc);
    writes.push(put(alloc, "b", "2")?)?;
    writes.push(put(alloc, "a", "0")?)?;
    writes.push(Write::Del(Text::new(alloc, "b")?))?;
    writes.push(put(alloc, "c", "[3]")?)?;
    writes.push(put(alloc, "a", "1")?)?;
    sit(place, &mut said)?;
    make(place, DeskCall::DraftWrites(&writes), &mut said)?;
    let asked = Mutate {
        name: &Text::new(alloc, "add")?,
        args: &Json::read(alloc, b"null")?,
        time: 0,
    };
    make(place, DeskCall::Mutate(asked), &mut said)?;
    make(place, DeskCall::DraftWrites(&writes), &mut said)?;
    make(place, DeskCall::DraftScan(&whole(alloc)?), &mut said)?;
    make(place, DeskCall::DraftWrites(&[]), &mut said)?;
    make(place, DeskCall::GiveUp, &mut said)?;
    Ok(said)
}

#[test]
fn a_run_writes_a_list_in_its_order(rt: HostRuntime) -> Result<(), Refusal> {
    let alloc = rt.alloc();
    let mut place = new_place(alloc)?;
    let said = writes(alloc, &mut place);
    drop(place.close());
    let right = "0 \n-111 \n3 \n0 \n0 [[\"a\",1],[\"c\",[3]]]\n0 \n0 \n";
    assert!(rt; said?.as_slice() == right.as_bytes());
    Ok(())
}
