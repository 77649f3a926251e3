// Reading a file: from its bytes to the three lists with their counts, or refusal 1 to 4 or 22.

#![tactic(auto)]

ghost use Rattle.std.specs.Prelude.{◌≡◌, length, IfOk};
ghost use Rattle.file_numbers.specs.Reading.{got};
ghost use Rattle.road.specs.File.{fields, read};
ghost use Rattle.road.specs.Faults.{of_result, of_got};
ghost use Rattle.reader.specs.Standing.{standing};
ghost use Rattle.fields.specs.Reads.{Reads};

use fields::{read_field, read_signed};
use item_fields::{read_crossfall, read_element, read_head, read_tangent};
use reader::Reader;
use road::{Alignment, Fault, Refusal};

// The most bytes that a file may have.
const MOST_BYTES: usize = 8192;

// Every field of the file, in order.
// A loop for each list: one function over a reading and a push was tried: it takes five arguments, and cannot show the push that there is room.
#[tactic(auto, using(fields::specs::Onward::stopped), unfolding(road::specs::File::fields))]
fn read_fields(r: &mut Reader) -> Result<Alignment, Refusal>
    ensures { Reads fields (standing r.old) (standing r.new) result }
{
    let mut a = Alignment::new(read_head(r)?);
    let elements = read_field(r, 1..=200)?;
    for _ in 0..elements {
        a.push_element(read_element(r)?);
    }
    a.set_start(read_signed(r, -500_000..=3_000_000)?);
    let tangents = read_field(r, 1..=100)?;
    for follow in (0..tangents as usize).rev() {
        a.push_tangent(read_tangent(r, follow)?);
    }
    let crossfalls = read_field(r, 2..=200)?;
    for _ in 0..crossfalls {
        a.push_crossfall(read_crossfall(r)?);
    }
    Ok(a)
}

// The whole file, to its last byte.
#[tactic(auto, using(crate::specs::Within::read_whole), unfolding(road::specs::File::read, road::specs::File::ended))]
pub fn read(file: &[u8]) -> Result<Alignment, Refusal>
    ensures answer { of_result result ≡ of_got (read file.now) }
    ensures whole { IfOk result (λ road. read file.now ≡ got road (length file.now)) }
{
    if file.len() > MOST_BYTES {
        return Err(Fault::LongFile.at(MOST_BYTES));
    }
    let mut r = Reader::new(file);
    let alignment = read_fields(&mut r)?;
    let place = r.place();
    if place < file.len() {
        return Err(Fault::BytesBehind.at(place));
    }
    Ok(alignment)
}
