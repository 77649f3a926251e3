// The routines for programs in other languages: the row of a station, the next listed station, many rows at a time, the speeds at which a road would pass,
// the rows of a list of pegs.
// Each returns 0, or a refusal's number with its place in `answer`.

#![tactic(auto)]

ghost use Rattle.std.specs.Prelude.{◌≡◌, length};
ghost use Rattle.road.specs.Faults.{of_result};
ghost use Rattle.road.specs.Machine.{row_answer, row_buffer, next_answer};
ghost use Rattle.listing.specs.Chunks.{list_answer, list_buffer};
ghost use Rattle.speed_marks.specs.Marks.{marks_answer};
ghost use Rattle.peg_list.specs.Pegs.{pegs_answer, pegs_buffer};
ghost use Rattle.voardusk.specs.Codes.{returned_number, answer_number, list_returned_number, list_answer_number, list_next_number, marks_returned_number, marks_answer_number, said_number, said_answer};

use road::Refusal;

// Stands for "there is no station": all 64 bits set. No road is so long. A number and no Option, since a C caller reads it.
pub const NO_STATION: u64 = u64::MAX;

// What a call returns: 0 with the value in `answer`, or the refusal's number with its place there.
fn tell(outcome: Result<u64, Refusal>, answer: &mut u64) -> u32
    ensures value { result ≡ said_number (of_result outcome) }
    ensures answer_after { answer.new ≡ said_answer (of_result outcome) }
{
    match outcome {
        Ok(value) => {
            *answer = value;
            0
        }
        Err(refusal) => {
            *answer = refusal.place as u64;
            refusal.fault.number()
        }
    }
}

// The line of a station over the first bytes of the buffer, its length in `answer`.
#[unsafe(no_mangle)]
pub extern "C" fn voardusk_row(file: &[u8], station: u64, line: &mut [u8], answer: &mut u64) -> u32
    ensures value { result ≡ returned_number (row_answer file.now station (length line.old)) }
    ensures answer_after { answer.new ≡ answer_number (row_answer file.now station (length line.old)) }
    ensures line_after { line.new ≡ row_buffer file.now station line.old }
{
    let row = stationing::row(file, station, line);
    tell(row.map(|length| length as u64), answer)
}

// The least listed station not below a station in `answer`, or NO_STATION.
#[unsafe(no_mangle)]
pub extern "C" fn voardusk_next_station(file: &[u8], station: u64, answer: &mut u64) -> u32
    ensures value { result ≡ returned_number (next_answer file.now station) }
    ensures answer_after { answer.new ≡ answer_number (next_answer file.now station) }
{
    let next = stationing::next_station(file, station);
    tell(next.map(|next| next.unwrap_or(NO_STATION)), answer)
}

// As many whole rows from a station on as the buffer has room for: how many bytes in `answer`, the station to go on from in `next`, or NO_STATION.
// Five parameters, as a C caller hands them over.
#[unsafe(no_mangle)]
pub extern "C" fn voardusk_list(
    file: &[u8],
    station: u64,
    out: &mut [u8],
    answer: &mut u64,
    next: &mut u64,
) -> u32
    ensures value { result ≡ list_returned_number (list_answer file.now station (length out.old)) }
    ensures answer_after { answer.new ≡ list_answer_number (list_answer file.now station (length out.old)) }
    ensures next_after { next.new ≡ list_next_number (list_answer file.now station (length out.old)) }
    ensures out_after { out.new ≡ list_buffer file.now station out.old }
{
    let rows = listing::list_rows(file, station, out);
    *next = rows.ok().and_then(|chunk| chunk.next).unwrap_or(NO_STATION);
    tell(rows.map(|chunk| chunk.bytes as u64), answer)
}

// The seven marks in `answer`, 40 km/h in the lowest bit: at which speeds the road would pass.
#[unsafe(no_mangle)]
pub extern "C" fn voardusk_marks(file: &[u8], answer: &mut u64) -> u32
    ensures value { result ≡ marks_returned_number (marks_answer file.now) }
    ensures answer_after { answer.new ≡ marks_answer_number (marks_answer file.now) }
{
    tell(speed_marks::marks(file).map(u64::from), answer)
}

// The rows of the pegs one behind another over the first bytes of the buffer, their total length in `answer`.
#[unsafe(no_mangle)]
pub extern "C" fn voardusk_pegs(
    file: &[u8],
    stations: &[u64],
    out: &mut [u8],
    answer: &mut u64,
) -> u32
    ensures value { result ≡ returned_number (pegs_answer file.now stations.now (length out.old)) }
    ensures answer_after { answer.new ≡ answer_number (pegs_answer file.now stations.now (length out.old)) }
    ensures out_after { out.new ≡ pegs_buffer file.now stations.now out.old }
{
    let rows = pegs::peg_rows(file, stations, out);
    tell(rows.map(|total| total as u64), answer)
}
