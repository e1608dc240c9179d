//! Counted places for lists of snapshots; one of them has the list that was shown last.

ghost use Rattle.std.specs.Prelude.{◌≡◌, ◌<◌, IfOk, IfSome};
ghost use Rattle.std.specs.List.{All};
ghost use Rattle.gl_window.specs.Window.{GoesOn};

use crate::history::Line;
use crate::seats::Seats;
use counted_slot::{Counted, Fits, MOST_READERS, ONE_READER, PRESENT, TAKEN};
use std::alloc::{AllocError, Global};
use std::sync::atomic::{AtomicU64, Ordering};

/// Places for lists: one for each watcher that looks, one for the list shown last, and one more.
const PLACES: usize = 10;

/// How often a look tries; each further try means that another list was shown meanwhile.
const TRIES: u32 = 1000;

/// A list in a place of the window. It continues the first list, which is the place's tag.
#[derive(Drop)]
struct Shot {
    line: Line,
}

impl Fits for Shot {
    ghost use Rattle.gl_window.specs.Window.{GoesOn};

    type Tag = Line;

    ghost fits = { λ first shot. GoesOn first shot.line };
}

/// The places, and the seats of the watchers.
#[derive(Drop)]
pub(crate) struct Window {
    pub(crate) first: Line,
    places: Vec<Counted<Shot>>,
    /// The place of the list that was shown last.
    last: AtomicU64,
    pub(crate) seats: Seats,
    ghost of_first: { All (λ tag. tag ≡ first) places.items },
}

impl Window {
    /// A window for lists that continue this one, which shows none yet.
    pub(crate) fn new(alloc: Global, first: Line) -> Result<Window, AllocError>
        ensures { IfOk result (λ w. w.first ≡ first) }
    {
        let places = places_of(alloc, &first)?;
        Ok(Window {
            first,
            places,
            last: AtomicU64::new(0),
            seats: Seats::new(alloc)?,
        })
    }

    /// Shows a list, and says whether there was a place for it: always, if no other thread shows one.
    pub(crate) fn show(&self, line: &Line) -> bool
        requires { GoesOn self.now.first line.now }
    {
        let last = self.last.load(Ordering::SeqCst);
        for at in 0..self.places.len() {
            if at as u64 != last && put(&self.places[at], line) {
                self.last.store(at as u64, Ordering::SeqCst);
                return true;
            }
        }
        false
    }

    /// The list shown last; none if a newer one was shown during each try.
    pub(crate) fn look(&self) -> Option<Line>
        ensures { IfSome result (λ line. GoesOn self.now.first line) }
    {
        for _try in 0..TRIES {
            let last = self.last.load(Ordering::SeqCst) as usize;
            if last < self.places.len() {
                if let Some(line) = take(&self.places[last]) {
                    return Some(line);
                }
            }
        }
        None
    }
}

/// Places for lists that continue this one.
fn places_of(alloc: Global, first: &Line) -> Result<Vec<Counted<Shot>>, AllocError>
    ensures { IfOk result (λ places. All (λ tag. tag ≡ first.now) places.items) }
{
    let mut places = Vec::with_capacity(alloc, PLACES)?;
    for _place in 0..PLACES {
        let line = first.again()?;
        places.push(Counted::new(Shot { line }, first))?;
    }
    Ok(places)
}

/// Puts a list into a place that no thread reads or writes, and says whether it did.
fn put(place: &Counted<Shot>, line: &Line) -> bool
    requires { GoesOn place.now line.now }
{
    let Ok(line) = line.again() else {
        return false;
    };
    let seen = place.load();
    if seen > PRESENT {
        return false;
    }
    let (found, claim) = place.turn(seen, TAKEN);
    if found != seen {
        claim.done();
        return false;
    }
    drop(claim.put(Shot { line }, PRESENT));
    true
}

/// Reads the list in a place, if it has one.
fn take(place: &Counted<Shot>) -> Option<Line>
    ensures { IfSome result (λ line. GoesOn place.now line) }
{
    let seen = place.load();
    if seen % 4 != PRESENT || seen >= MOST_READERS * ONE_READER {
        return None;
    }
    let (found, claim) = place.turn(seen, seen + ONE_READER);
    if found != seen {
        claim.done();
        return None;
    }
    let line = claim.get().line.again();
    claim.leave();
    line.ok()
}
