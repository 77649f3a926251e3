// The rows of the listed stations in one walk along the three lists of an accepted road.

#![tactic(auto)]

ghost use Rattle.std.specs.Prelude.{◌≡◌, ◌≤◌, length};
ghost use mathlib.Core.List.{Memᴰ};
ghost use Rattle.laws_of_acceptance.specs.Guaranteed.{Guaranteed};
ghost use Rattle.road.specs.Listed.{listed};
ghost use Rattle.road.specs.Machine.{overwrite};
ghost use Rattle.cursors.specs.Places.{PlaceReached};
ghost use Rattle.walk.specs.FittingRows.{chunk, answer};
ghost use Rattle.walk.specs.Walks.{Stands, Entered, moved};

use accepted_road::AcceptedRoad;
use cursors::{Place, View};

// How many bytes were written, and the station to go on from, or that the list is done.
#[derive(Clone, Copy)]
pub struct Chunk {
    pub bytes: usize,
    pub next: Option<u64>,
}

// A walk along the listed stations: where it stands, the next multiple of step, and the segment there with its joint. That a station is listed is asked
// of a number: a type for it would be made anew at each station.
#[derive(Clone, Copy)]
pub struct Walk {
    pub station: u64,
    pub multiple: u64,
    pub view: View,
}

impl Walk {
    // The walk at a listed station, from a place at or before it.
    fn at(road: &AcceptedRoad, place: Place, x: u64) -> Walk
        requires reached { PlaceReached road.now place x }
        requires is_listed { Memᴰ x (listed road.now) }
        ensures { Entered road.now x result }
    {
        let step = road.step();
        Walk {
            station: x,
            multiple: (x / step + 1) * step,
            view: cursors::view_at(road, place, x),
        }
    }

    // The walk begun at a listed station.
    pub fn begin(road: &AcceptedRoad, first: u64) -> Walk
        requires { Memᴰ first (listed road.now) }
        ensures { Entered road.now first result }
    {
        Walk::at(road, cursors::start(road), first)
    }

    // One station on: the next multiple of step, or the joint where that is not beyond it.
    pub fn move_on(&mut self, step: u64)
        requires multiple_small { self.old.multiple ≤ 1000000000 }
        requires step_small { step ≤ 100000 }
        ensures { self.new ≡ moved step self.old }
    {
        self.station = self.multiple.min(self.view.joint);
        self.multiple += step;
    }

    // The next segment, for a walk that stands at the joint; past T there is none.
    pub fn next_segment(&mut self, road: &AcceptedRoad)
        requires { Stands road.now self.old }
        ensures { Entered road.now self.old.station self.new }
    {
        if self.station <= road.total() {
            *self = Walk::at(road, self.view.place, self.station);
        }
    }
}

// The rows from a listed station on, as long as at least 96 bytes remain.
fn rows_on(road: &AcceptedRoad, first: u64, out: &mut [u8]) -> Chunk
    requires { Memᴰ first (listed road.now) }
    ensures value { result ≡ answer (chunk road.now first (length out.old)) }
    ensures out_after { out.new ≡ overwrite (chunk road.now first (length out.old)).text out.old }
{
    let step = road.step();
    let mut walk = Walk::begin(road, first);
    let mut bytes: usize = 0;
    // the walk moves itself, by multiples and joints: an iterator would have to copy its segment for each row, since it cannot lend its own
    while walk.station <= road.total() {
        while walk.station < walk.view.joint {
            let room = out.len() - bytes;
            if room < segment::LINE_BYTES {
                return Chunk {
                    bytes,
                    next: Some(walk.station),
                };
            }
            let here = walk.view.segment.at(walk.station);
            bytes += here.put_line(&mut out[bytes..]);
            walk.move_on(step);
        }
        walk.next_segment(road);
    }
    Chunk { bytes, next: None }
}

// The rows of the listed stations that are not below a station, as many whole rows as the buffer has room for.
pub fn rows_from(road: &AcceptedRoad, from: u64, out: &mut [u8]) -> Chunk
    ensures guaranteed { Guaranteed road.now }
    ensures value { result ≡ answer (chunk road.now from (length out.old)) }
    ensures out_after { out.new ≡ overwrite (chunk road.now from (length out.old)).text out.old }
{
    match next_listed::next_in(road, from) {
        Some(first) => rows_on(road, first, out),
        None => Chunk {
            bytes: 0,
            next: None,
        },
    }
}
