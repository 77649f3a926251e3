// The rows of a list of pegs, in one walk along the three lists of an accepted road.

#![tactic(auto)]

ghost use Rattle.std.specs.Prelude.{◌≡◌, ◌*◌, ◌≤◌, length};
ghost use Rattle.road.specs.Exact.{total};
ghost use Rattle.road.specs.Machine.{of_row, overwrite};
ghost use Rattle.peg_list.specs.Pegs.{lines, pegs_of, buffer_of, pegs_answer, pegs_buffer};
ghost use Rattle.peg_list.specs.Search.{Good};

use accepted_road::AcceptedRoad;
use road::{Fault, Refusal};

// The rows of pegs that are all good, from the start of the buffer on; their length. The place on the three lists moves forward only, and a segment
// serves all pegs up to its joint.
fn put_rows(road: &AcceptedRoad, stations: &[u64], out: &mut [u8]) -> usize
    requires good { Good (total road.now) stations.now }
    requires room { 96 * length stations.now ≤ length out.old }
    ensures value { result ≡ length (lines road.now stations.now) }
    ensures out_after { out.new ≡ overwrite (lines road.now stations.now) out.old }
{
    let mut view = cursors::view_at(road, cursors::start(road), 0);
    let mut bytes: usize = 0;
    for &station in stations {
        if view.joint <= station {
            view = cursors::view_at(road, view.place, station);
        }
        bytes += view.segment.at(station).put_line(&mut out[bytes..]);
    }
    bytes
}

// The rows of the pegs of an accepted road; refusals 20 and 24.
fn rows_in(road: &AcceptedRoad, stations: &[u64], out: &mut [u8]) -> Result<usize, Refusal>
    ensures result_value { of_row result ≡ pegs_of road.now stations.now (length out.old) }
    ensures out_after { out.new ≡ buffer_of road.now stations.now out.old }
{
    // a quotient, since 96 times any count might not fit
    if out.len() / segment::LINE_BYTES < stations.len() {
        return Err(Fault::ShortBuffer.at(0));
    }
    if let Some(bad) = peg_list::first_bad(stations, road.total()) {
        return Err(Fault::BadPeg.at(bad));
    }
    Ok(put_rows(road, stations, out))
}

// The rows of up to 2,000 pegs one behind another over the first bytes of the buffer and their total length, or the first refusal.
#[tactic(auto, using(peg_list::specs::Answers::answers))]
pub fn peg_rows(file: &[u8], stations: &[u64], out: &mut [u8]) -> Result<usize, Refusal>
    ensures result_value { of_row result ≡ pegs_answer file.now stations.now (length out.old) }
    ensures out_after { out.new ≡ pegs_buffer file.now stations.now out.old }
{
    let road = acceptance::accept(file)?;
    rows_in(&road, stations, out)
}
