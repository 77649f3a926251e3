// The routines of one station: its row, and the next listed station.

#![tactic(auto)]

ghost use Rattle.std.specs.Prelude.{◌≡◌, length, ◌≤◌};
ghost use Rattle.road.specs.Machine.{of_row, of_next, row_of, buffer_of, overwrite, row_answer, row_buffer, next_answer};
ghost use Rattle.road.specs.Exact.{total};
ghost use Rattle.road.specs.Line.{line as line_at};

use accepted_road::AcceptedRoad;
use road::{Fault, Refusal};

// The line of a station of an accepted road, from the start of the buffer on; its length.
fn put_row(road: &AcceptedRoad, station: u64, line: &mut [u8]) -> usize
    requires on_road { station ≤ total road.now }
    requires room { 96 ≤ length line.old }
    ensures value { result ≡ length (line_at road.now station) }
    ensures line_after { line.new ≡ overwrite (line_at road.now station) line.old }
{
    let view = cursors::view_at(road, cursors::start(road), station);
    view.segment.at(station).put_line(line)
}

// The row of a station of an accepted road; refusals 20 and 21.
fn row_in(road: &AcceptedRoad, station: u64, line: &mut [u8]) -> Result<usize, Refusal>
    ensures result_value { of_row result ≡ row_of road.now station (length line.old) }
    ensures line_after { line.new ≡ buffer_of road.now station line.old }
{
    if line.len() < segment::LINE_BYTES {
        return Err(Fault::ShortBuffer.at(0));
    }
    if road.total() < station {
        return Err(Fault::BeyondEnd.at(0));
    }
    Ok(put_row(road, station, line))
}

// The line of a station over the first bytes of the buffer and its length, or the first refusal.
#[tactic(auto, using(crate::specs::Routines::answers))]
pub fn row(file: &[u8], station: u64, line: &mut [u8]) -> Result<usize, Refusal>
    ensures result_value { of_row result ≡ row_answer file.now station (length line.old) }
    ensures line_after { line.new ≡ row_buffer file.now station line.old }
{
    let road = acceptance::accept(file)?;
    row_in(&road, station, line)
}

// The least listed station not below a station, or that there is none, or the file's refusal.
#[tactic(auto, using(crate::specs::Routines::answers))]
pub fn next_station(file: &[u8], station: u64) -> Result<Option<u64>, Refusal>
    ensures { of_next result ≡ next_answer file.now station }
{
    let road = acceptance::accept(file)?;
    Ok(next_listed::next_in(&road, station))
}
