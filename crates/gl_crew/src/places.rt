//! The sessions of a crew, each in its own thread.

ghost use Rattle.std.specs.Prelude.{◌≡◌, ◌*◌, ◌+◌, ◌≤◌, ◌<◌, ◌^◌, [], All, IfOk, IfSome, Some, None, is_some, length, map, true, vec_capacity, vec_len};
ghost use Rattle.gl_crew.specs.Crews.{HasServed, IsFaultless};

use crate::fault::CrewFault;
use crate::work::Work;
use gl_shared::{Naming, Session, Share, Shared};
use std::alloc::Global;
use std::sync::Wait;
use std::thread;
use std::thread::Threads;

/// A session of a crew, numbered by its place in the list.
#[derive(Drop)]
pub(crate) struct Place<N: Naming> {
    /// Its share, unless it is running.
    share: Option<Share<N>>,
    /// The fault that ended it early.
    fault: Option<CrewFault>,
}

/// What the sessions of a crew return, by their numbers.
#[derive(Drop)]
pub(crate) struct Served<N: Naming> {
    pub(crate) shares: Vec<Share<N>>,
    pub(crate) faults: Vec<Option<CrewFault>>,
}

/// Room for the sessions of a crew and for what they return. It is made before the first of them
/// starts, so none of them is lost if memory runs out.
#[derive(Drop)]
pub(crate) struct Room<N: Naming> {
    count: usize,
    places: Vec<Place<N>>,
    back: Served<N>,
    ghost empty: { (places.items ≡ []) × (back.shares.items ≡ []) × (back.faults.items ≡ []) },
    ghost fits: { (count ≤ vec_capacity places) × (count ≤ vec_capacity back.shares) × (count ≤ vec_capacity back.faults) },
}

impl<N: Naming> Room<N> {
    /// Room for this many shares.
    pub(crate) fn new(alloc: Global, count: usize) -> Option<Room<N>>
        ensures { IfSome result (λ room. room.count ≡ count) }
    {
        Some(Room {
            count,
            places: Vec::with_capacity(alloc, count).ok()?,
            back: Served {
                shares: Vec::with_capacity(alloc, count).ok()?,
                faults: Vec::with_capacity(alloc, count).ok()?,
            },
        })
    }
}

/// Gives each share to a session, and runs all sessions. Returns the shares, and what ended each
/// session early.
pub(crate) fn serve_all<N: Naming + Send + Sync, W: Work + Sync, R: Threads + Wait + Sync>(
    rt: &R,
    shared: &Shared<N>,
    work: &W,
    rounds: u32,
    room: Room<N>,
    shares: Vec<Share<N>>,
) -> Served<N>
    requires few { vec_len shares < 2 ^ 31 }
    requires new { All (λ n. n ≡ 0) shares.items }
    requires room { vec_len shares ≤ room.count }
    ensures each { (vec_len result.shares ≡ vec_len shares) × (vec_len result.faults ≡ vec_len shares) }
    ensures served { IsFaultless result.faults.items → All (λ n. n ≡ rounds * W.commands) result.shares.items }
    ensures room { room.count ≤ vec_capacity result.shares }
{
    let Room {
        count: _,
        places,
        back,
    } = room;
    let places = place_all(places, shares);
    leave_all(serve_each(rt, shared, work, rounds, places), back)
}

/// A session for each share.
fn place_all<N: Naming>(mut places: Vec<Place<N>>, shares: Vec<Share<N>>) -> Vec<Place<N>>
    requires new { All (λ n. n ≡ 0) shares.items }
    requires places { (places.items ≡ []) × (vec_len shares ≤ vec_capacity places) }
    ensures each { vec_len result ≡ vec_len shares }
    ensures ready { All (λ place. place.share ≡ Some 0) result.items }
{
    for share in shares {
        places.push_reserved(Place {
            share: Some(share),
            fault: None,
        });
    }
    places
}

/// Runs all sessions.
fn serve_each<N: Naming + Send + Sync, W: Work + Sync, R: Threads + Wait + Sync>(
    rt: &R,
    shared: &Shared<N>,
    work: &W,
    rounds: u32,
    mut places: Vec<Place<N>>,
) -> Vec<Place<N>>
    requires few { vec_len places < 2 ^ 31 }
    requires ready { All (λ place. place.share ≡ Some 0) places.items }
    ensures each { vec_len result ≡ vec_len places }
    ensures served { All (λ place. HasServed (rounds * W.commands) place.share place.fault) result.items }
{
    if places.is_empty() {
        return places;
    }
    let threads = places.len();
    thread::for_each_mut(
        rt,
        places.as_mut_slice(),
        threads,
        &|i: usize, place: &mut Place<N>|
            requires { (i < 2 ^ 31) × (place.now.share ≡ Some 0) }
            ensures { HasServed (rounds * W.commands) place.exit.now.share place.exit.now.fault }
        { serve(rt, shared, work, rounds, i as u32 + 1, place) },
    );
    places
}

/// Runs one session.
fn serve<N: Naming, W: Work, R: Wait>(
    rt: &R,
    shared: &Shared<N>,
    work: &W,
    rounds: u32,
    number: u32,
    place: &mut Place<N>,
)
    requires { place.old.share ≡ Some 0 }
    ensures { HasServed (rounds * W.commands) place.new.share place.new.fault }
{
    let Some(share) = place.share.take() else {
        unreachable!()
    };
    let mut session = Session::new(shared, share);
    place.fault = do_rounds(rt, work, &mut session, number, rounds).err();
    place.share = Some(session.end());
}

/// Does these rounds, up to the first fault.
fn do_rounds<N: Naming, W: Work, R: Wait>(
    rt: &R,
    work: &W,
    session: &mut Session<'_, N>,
    number: u32,
    rounds: u32,
) -> Result<(), CrewFault>
    ensures { IfOk result (λ _. session.new.share ≡ session.old.share + rounds * W.commands) }
{
    for round in 0..rounds {
        work.round(rt, session, number, round + 1)?;
    }
    Ok(())
}

/// Collects shares and faults, from the first session on.
fn leave_all<N: Naming>(places: Vec<Place<N>>, mut back: Served<N>) -> Served<N>
    requires ended { All (λ place. is_some place.share ≡ true) places.items }
    requires empty { (back.shares.items ≡ []) × (back.faults.items ≡ []) }
    requires fits { (vec_len places ≤ vec_capacity back.shares) × (vec_len places ≤ vec_capacity back.faults) }
    ensures shares { map (λ n. Some n) result.shares.items ≡ map (λ place. place.share) places.items }
    ensures faults { result.faults.items ≡ map (λ place. place.fault) places.items }
    ensures room { vec_capacity back.shares ≤ vec_capacity result.shares }
{
    for place in places {
        let Place { share, fault } = place;
        let Some(share) = share else { unreachable!() };
        back.shares.push_reserved(share);
        back.faults.push_reserved(fault);
    }
    back
}
