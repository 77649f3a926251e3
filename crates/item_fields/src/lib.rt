// The items of the file, each made of its fields: the contract, the head, a plan element, a tangent, a crossfall point.

#![tactic(auto, using(fields::specs::Onward::chained, fields::specs::Onward::stopped, fields::specs::Onward::gives, crate::proofs::Contracts::dated, crate::proofs::Contracts::plain), unfolding(road::specs::File::element, road::specs::File::tangent, road::specs::File::point, road::specs::File::dated_fields, road::specs::File::head_fields))]

ghost use Rattle.road.specs.File.{element, half, tangent, point, contract_fields, head_fields};
ghost use Rattle.reader.specs.Standing.{standing};
ghost use Rattle.fields.specs.Reads.{Reads};

use fields::{read_as, read_date, read_field, read_number, read_signed, read_sized};
use reader::Reader;
use road::{Class, Contract, Crossfall, Element, Head, Kind, Refusal, Tangent, Terrain};

pub fn read_element(r: &mut Reader) -> Result<Element, Refusal>
    ensures { Reads element (standing r.old) (standing r.new) result }
{
    let kind = read_as(r, Kind::try_from)?;
    let length = read_field(r, 1..=10_000_000)?;
    // Only an arc has a radius.
    let radius = match kind {
        Kind::Arc => read_sized(r, 10_000..=10_000_000)?,
        Kind::Straight | Kind::Clothoid | Kind::Other => 0,
    };
    Ok(Element {
        kind,
        length,
        radius,
    })
}

// The half length of the vertical curve after a tangent. `follow`: how many tangents follow it, as the definition
// counts and the reading of the file does; a bool would be made from it at each call.
fn read_half(r: &mut Reader, follow: usize) -> Result<u32, Refusal>
    ensures { Reads (half follow) (standing r.old) (standing r.new) result }
{
    if follow == 0 {
        Ok(0)
    } else {
        read_field(r, 0..=1_000_000)
    }
}

pub fn read_tangent(r: &mut Reader, follow: usize) -> Result<Tangent, Refusal>
    ensures { Reads (tangent follow) (standing r.old) (standing r.new) result }
{
    let length = read_field(r, 1..=10_000_000)?;
    let grade = read_signed(r, -120_000..=120_000)?;
    let half = read_half(r, follow)?;
    Ok(Tangent {
        length,
        grade,
        half,
    })
}

pub fn read_crossfall(r: &mut Reader) -> Result<Crossfall, Refusal>
    ensures { Reads point (standing r.old) (standing r.new) result }
{
    let station = read_field(r, 0..=100_000_000)?;
    let left = read_signed(r, -80_000..=80_000)?;
    let right = read_signed(r, -80_000..=80_000)?;
    Ok(Crossfall {
        station,
        left,
        right,
    })
}

// The contract's date where 9 stands before the class; else nothing is read.
fn read_contract(r: &mut Reader) -> Result<Contract, Refusal>
    ensures { Reads contract_fields (standing r.old) (standing r.new) result }
{
    if r.peek() != Some(9) {
        return Ok(Contract::Undated);
    }
    read_number(r)?;
    let day = read_date(r)?;
    Ok(Contract::Dated(day))
}

pub fn read_head(r: &mut Reader) -> Result<Head, Refusal>
    ensures { Reads head_fields (standing r.old) (standing r.new) result }
{
    let contract = read_contract(r)?;
    let class = read_as(r, Class::try_from)?;
    let terrain = read_as(r, Terrain::try_from)?;
    let step = read_field(r, 1_000..=100_000)?;
    let ramp = read_field(r, 1..=20_000)?;
    Ok(Head {
        contract,
        class,
        terrain,
        step,
        ramp,
    })
}
