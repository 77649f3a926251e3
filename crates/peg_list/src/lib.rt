// The first bad peg of a list: pegs do not fall, are at most 2,000, and none lies beyond T.

#![tactic(auto)]

ghost use Rattle.std.specs.Prelude.{◌≡◌};
ghost use Rattle.peg_list.specs.Pegs.{first_bad};

// A list has no more pegs than this.
const PEG_COUNT: usize = 2000;

// The first peg that lies below the one before it, is one too many, or lies beyond T.
#[tactic(auto, using(crate::specs::Search::passed_none, crate::specs::Search::found_none))]
pub fn first_bad(stations: &[u64], whole: u64) -> Option<usize>
    ensures { result ≡ first_bad whole stations.now }
{
    let mut before: u64 = 0;
    for (i, &station) in stations.iter().enumerate() {
        if station < before || PEG_COUNT <= i || whole < station {
            return Some(i);
        }
        before = station;
    }
    None
}
