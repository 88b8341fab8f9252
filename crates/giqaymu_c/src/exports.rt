//! What C calls.
ghost use Rattle.std.specs.Prelude.{◌≡◌, ◌≢◌, ◌<◌, IfSome, None, length, pos, slice_get};
ghost use Rattle.std.specs.List.{All};
ghost use Rattle.giqaymu_c.specs.Jobs.{Acts, HasOpened, IsFit, IsToldByNumbers, asks_meant, meant_at};
ghost use Rattle.giqaymu_c.specs.Exports.{AreOpenedFor, IsCalled, IsGivenOut, IsLike, IsOpenedWith};
ghost use Rattle.giqaymu_c.specs.Exports.{IsOpeningFault, IsRefusedFor, TellsFault};
ghost use Rattle.giqaymu_c.specs.declared.jobs.JobReply.{JobReply as HostReply};

use crate::handle::{Handle, act};
use crate::jobs::{Grounds, Job, JobReply};
use group_history::Refusal;
use host_places::{CallFault, GroupOpening, Numbered, Outcome};
use rule_mutators::tell_fault;
use std::alloc::Global;

/// The version of the library: major * 10,000 + minor * 100 + patch. With 0x8000_0000 added it says that it was built
/// without its proof.
pub const VERSION: u32 = 10200;

/// What a call answers beside its number: bytes that lie there until the place's next call, a number and a code.
#[repr(C)]
#[derive(Drop)]
pub struct CallAnswer {
    pub at: *const u8,
    pub len: usize,
    pub number: u64,
    pub code: u32,
}

// Takes a place away. A closed one, of the same ghost data, is there until it is put back.
fn taken(place: &mut Handle) -> Handle
    ensures { (result ≡ place.old) × (place.new.spot ≡ None) × (place.new.own ≡ place.old.own) }
{
    let none = Handle::none_for(Job::Close, place);
    std::mem::replace(place, none)
}

// Does a job at a place, and answers the place that is given.
fn act_at(alloc: Global, place: &mut Handle, job: Job<'_>) -> (Handle, JobReply)
    requires { IsFit job (meant_at place.old.text place.old.asks place.old.own) place.old.spot }
    ensures { IsLike place.old place.new × IsLike place.old result.0
        × Acts job.entry (meant_at place.old.text place.old.asks place.old.own) place.old.spot result.1 place.new.spot
        result.0.spot }
{
    let handle = taken(place);
    let (handle, given, reply) = act(handle, alloc, job);
    std::mem::replace(place, handle).forget();
    (given, reply)
}

// Closes a place.
fn close(alloc: Global, handle: Handle) {
    let (handle, given, _) = act(handle, alloc, Job::Close);
    handle.forget();
    given.forget();
}

/// Makes the call of these numbers and bytes at a place. A closed place is refused. The one premise is the host's to
/// keep: where the call tells that a run of one of its own mutators has ended, the run ended as the place's runs mean.
/// Where the host has none, there is none.
#[unsafe(no_mangle)]
pub extern "C" fn giq_call(
    alloc: Global,
    place: &mut Handle,
    what: u32,
    m: u32,
    n: u64,
    a: &[u8],
    b: &[u8],
    out: &mut CallAnswer,
) -> i32
    requires { IfSome place.old.spot (IsToldByNumbers (meant_at place.old.text place.old.asks place.old.own) what m n) }
    ensures same { IsLike place.old place.new }
    ensures called { IsCalled (meant_at place.old.text place.old.asks place.old.own) what m n a.now b.now place.old.spot
        result out.new place.new.spot }
{
    let call = Job::Call(Numbered { what, m, n, a, b });
    let (given, reply) = act_at(alloc, place, call);
    given.forget();
    *out = CallAnswer {
        at: reply.at,
        len: reply.len,
        number: reply.value,
        code: reply.code,
    };
    reply.number
}

/// Closes a place, with the client that sits there. A change that asks for a run is given up. The last one of a group
/// frees it.
#[unsafe(no_mangle)]
pub extern "C" fn giq_close(alloc: Global, place: &mut Handle)
    ensures { place.new.spot ≡ None }
{
    let handle = taken(place);
    close(alloc, handle);
}

// Opens a group: this place has all of its places then. The host's own mutators have the runs of the other place.
fn open_first(alloc: Global, grounds: Grounds<'_>, like: &Handle) -> (Handle, i32)
    ensures text { (result.0.text ≡ grounds.entry.rules.now) × (result.0.asks ≡ asks_meant grounds.entry.own)
        × (result.0.own ≡ like.now.own) }
    ensures opened { (reply : HostReply) × (result.1 ≡ reply.number) × HasOpened grounds.entry reply result.0.spot }
{
    let job = Job::Open(grounds);
    let (handle, given, reply) = act(Handle::none_for(job, like), alloc, job);
    given.forget();
    (handle, reply.number)
}

// Puts a place in the stead of another one, which is closed.
fn put(alloc: Global, place: &mut Handle, handle: Handle)
    ensures { place.new ≡ handle }
{
    close(alloc, std::mem::replace(place, handle));
}

// Gives the places behind the first one, which is not among them now.
fn give_out(alloc: Global, first: Handle, places: &mut [Handle]) -> (Handle, i32)
    ensures count { length places.new ≡ length places.old }
    ensures given { IsGivenOut (length places.old) first result.0 result.1 places.new }
{
    let mut first = first;
    for at in 1..places.len() {
        let (next, given, reply) = act(first, alloc, Job::Give);
        first = next;
        put(alloc, &mut places[at], given);
        if reply.number != 0 {
            return (first, reply.number);
        }
    }
    (first, 0)
}

fn close_all(alloc: Global, places: &mut [Handle])
    ensures count { length places.new ≡ length places.old }
    ensures closed { All (λ h. h.spot ≡ None) places.new }
{
    for at in 0..places.len() {
        let handle = taken(&mut places[at]);
        close(alloc, handle);
    }
}

// Opens a group, and gives its places out.
fn open_all(alloc: Global, grounds: Grounds<'_>, places: &mut [Handle]) -> i32
    requires some { 0 < length places.old }
    requires count { grounds.with.places ≡ length places.old }
    ensures count { length places.new ≡ length places.old }
    ensures opened { result ≡ pos 0 → IfSome (slice_get places.old 0)
        (λ h. AreOpenedFor grounds.entry h.own places.new) }
    ensures refused { result ≢ pos 0 → IsOpeningFault grounds.entry result }
{
    let (first, number) = open_first(alloc, grounds, &places[0]);
    if number != 0 {
        close(alloc, first);
        return number;
    }
    let (first, number) = give_out(alloc, first, places);
    put(alloc, &mut places[0], first);
    number
}

/// Opens a group, and gives out its places: as many as there is room for, 1 to 256. Places that were open are closed
/// first. Where it is refused, all of them are closed. `rules` is a JSON text of rules, or no bytes. With `own` 1 names
/// without a rule are those of the host's own mutators, whose runs are the ones that the first place has; with 0 those
/// of scripts.
#[unsafe(no_mangle)]
pub extern "C" fn giq_open(
    alloc: Global,
    id: &[u8],
    profile: &[u8],
    schema: &[u8],
    rules: &[u8],
    slots: u32,
    own: u32,
    places: &mut [Handle],
) -> i32
    ensures count { length places.new ≡ length places.old }
    ensures opened { result ≡ pos 0 → IfSome (slice_get places.old 0)
        (λ h. IsOpenedWith id.now profile.now schema.now rules.now slots own h.own places.new) }
    ensures refused { result ≢ pos 0 → All (λ h. h.spot ≡ None) places.new }
    ensures why { result ≢ pos 0 → IsRefusedFor id.now profile.now schema.now rules.now slots own (length places.old)
        result }
{
    if places.len() < 1 || places.len() > 256 {
        close_all(alloc, places);
        return Outcome::Faulty(CallFault::OutOfRange).number();
    }
    let with = GroupOpening {
        id,
        profile,
        schema,
        slots,
        places: places.len() as u32,
    };
    let number = open_all(alloc, Grounds { with, rules, own }, places);
    if number != 0 {
        close_all(alloc, places);
    }
    number
}

/// Tells what is wrong with rules, before a group is opened by them: as much of the text as there is room for. Answers
/// how long the whole text is, 0 where nothing is wrong, or that memory was refused, and then nothing is told.
#[unsafe(no_mangle)]
pub extern "C" fn giq_rules_fault(alloc: Global, rules: &[u8], text: &mut [u8]) -> i64
    ensures { TellsFault rules.now text.old result text.new }
{
    match tell_fault(alloc, rules, text) {
        Ok(length) => length as i64,
        Err(_) => i64::from(Outcome::Refused(Refusal::NoMemory).number()),
    }
}

/// The version of the library.
#[unsafe(no_mangle)]
pub extern "C" fn giq_version() -> u32
    ensures { result ≡ VERSION }
{
    VERSION
}
