// The least listed station not below a station.

#![tactic(auto)]

ghost use Rattle.std.specs.Prelude.{◌≡◌, ℕ, List, [], ◌∷◌, ◌<◌, ◌≤◌, length};
ghost use Rattle.std.specs.Iterator.{AlwaysYields, IsFinite};
ghost use Rattle.road.specs.Exact.{total};
ghost use Rattle.road.specs.Listed.{multiples, next_listed};
ghost use Rattle.next_listed.specs.Search.{after};
ghost use Rattle.next_listed.specs.Along.{point_stations, ends_from, curves_from};

mod with_total;

use road::{Alignment, Crossfall, Element, Tangent};
pub use with_total::{AlignmentWithTotal, WithTotal};

// A search for the least station that is not below one.
#[derive(Drop)]
struct Search {
    from: u64,
    least: Option<u64>,
}

impl Search {
    // One more station: it counts where it is not below.
    fn add(&mut self, station: u64)
        ensures { self.new ≡ after (station ∷ []) self.old }
    {
        if self.from <= station {
            self.least = Some(self.least.map_or(station, |least| station.min(least)));
        }
    }

    // The multiples of step below T.
    #[tactic(auto, using(crate::specs::Multiples::multiples_past, crate::specs::Multiples::multiples_none, crate::specs::Multiples::multiples_some))]
    fn add_multiples(&mut self, step: u32, whole: u64)
        requires step_positive { 0 < step }
        requires whole_small { whole ≤ 100_000_000 }
        ensures { self.new ≡ after (multiples step whole) self.old }
    {
        if self.from < whole {
            let multiple = self.from.next_multiple_of(u64::from(step));
            if multiple < whole {
                self.add(multiple);
            }
        }
    }

    // Stations in turn.
    fn add_all<I: Iterator<Item = u64> + Drop>(&mut self, stations: I)
        requires can { I.can_next stations }
        requires ends { IsFinite (I.remaining stations) }
        ensures { (listed : List ℕ) → AlwaysYields I.next_gives (λ x. x) stations listed → self.new ≡ after listed self.old }
    {
        for station in stations {
            self.add(station);
        }
    }

    // The element ends.
    fn add_ends(&mut self, elements: &[Element])
        requires { length elements.now ≤ 200 }
        ensures { self.new ≡ after (ends_from 0 elements.now) self.old }
    {
        self.add_all(
            elements.iter().scan(0, |end: &mut u64, e| {
                *end += u64::from(e.length);
                Some(*end)
            }),
        );
    }

    // Both ends of the curve at the end of each tangent: its vertex, where the half length is 0.
    fn add_curves(&mut self, tangents: &[Tangent])
        requires { length tangents.now ≤ 100 }
        ensures { self.new ≡ after (curves_from 0 tangents.now) self.old }
    {
        let curves = tangents.iter().scan(0, |vertex: &mut u64, t| {
            let half = u64::from(t.half);
            *vertex += u64::from(t.length);
            Some([vertex.saturating_sub(half), *vertex + half])
        });
        self.add_all(curves.flatten());
    }

    // The stations of the crossfall points.
    fn add_points(&mut self, points: &[Crossfall])
        ensures { self.new ≡ after (point_stations points.now) self.old }
    {
        self.add_all(points.iter().map(|p| u64::from(p.station)));
    }
}

// The least listed station of an alignment not below s, or that there is none.
pub fn least_listed(alignment: &Alignment, whole: u64, s: u64) -> Option<u64>
    requires step_positive { 0 < alignment.now.head.step }
    requires total_is { whole ≡ total alignment.now }
    requires total_small { whole ≤ 100_000_000 }
    ensures { result ≡ next_listed alignment.now s }
{
    let tangents = alignment.tangents();
    let mut search = Search {
        from: s,
        least: None,
    };
    search.add(0);
    search.add(whole);
    search.add_multiples(alignment.head().step, whole);
    search.add_ends(alignment.elements());
    search.add_curves(&tangents[..tangents.len().saturating_sub(1)]);
    search.add_points(alignment.crossfalls());
    search.least
}

// The least listed station of an accepted road, or of any alignment with its T, not below s, or that there is none.
pub fn next_in<A: WithTotal>(road: &A, s: u64) -> Option<u64>
    ensures value { result ≡ next_listed (A.road road.now) s }
    ensures guaranteed { A.guaranteed road.now }
{
    let given = road.with_total();
    least_listed(given.alignment, given.whole, s)
}
