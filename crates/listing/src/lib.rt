// The list of a file, as many whole rows at a time as a lent buffer has room for.

#![tactic(auto)]

ghost use Rattle.std.specs.Prelude.{◌≡◌, length};
ghost use Rattle.road.specs.Faults.{of_result};
ghost use Rattle.listing.specs.Chunks.{list_from, rows_from, list_answer, list_buffer};

use accepted_road::AcceptedRoad;
use road::{Fault, Refusal};
use walk::Chunk;

// The rows of an accepted road: 20 for a buffer under 96 bytes.
fn put_rows(road: &AcceptedRoad, station: u64, out: &mut [u8]) -> Result<Chunk, Refusal>
    ensures result_value { of_result result ≡ list_from road.now station (length out.old) }
    ensures out_after { out.new ≡ rows_from road.now station out.old }
{
    if out.len() < segment::LINE_BYTES {
        return Err(Fault::ShortBuffer.at(0));
    }
    Ok(walk::rows_from(road, station, out))
}

// The rows of the listed stations that are not below a station, or the file's refusal, or 20 for a buffer under 96 bytes.
#[tactic(auto, using(crate::specs::Chunks::answers))]
pub fn list_rows(file: &[u8], station: u64, out: &mut [u8]) -> Result<Chunk, Refusal>
    ensures result_value { of_result result ≡ list_answer file.now station (length out.old) }
    ensures out_after { out.new ≡ list_buffer file.now station out.old }
{
    let road = acceptance::accept(file)?;
    put_rows(&road, station, out)
}
