// The numbers of the file, each in its range: refusals 2, 3 and 22.

#![tactic(auto)]

ghost use Rattle.std.specs.Prelude.{◌≡◌, ℕ, ◌&&◌, Result};
ghost use Rattle.std.specs.Ordering.{partial_le};
ghost use Rattle.file_numbers.specs.Number.{number};
ghost use Rattle.road.specs.File.{field, date, signed, between, in_size};
ghost use Rattle.road.specs.declared.refusal.Fault.{Fault};
ghost use Rattle.reader.specs.Standing.{standing};
ghost use Rattle.fields.specs.Reads.{Reads, saying, where_fits};

use file_numbers::signed_of;
use reader::Reader;
use road::{Fault, Refusal};
use std::ops::RangeInclusive;

// The number at the reading place; one at fault is refused at its first byte.
pub fn read_number(r: &mut Reader) -> Result<u32, Refusal>
    ensures { Reads number (standing r.old) (standing r.new) result }
{
    let place = r.place();
    r.number().ok_or(Fault::BrokenNumber.at(place))
}

// What the number at the reading place says; one that says nothing is refused at its first byte.
pub fn read_as<T, F: FnOnce(u32) -> Result<T, Fault>>(r: &mut Reader, says: F) -> Result<T, Refusal>
    requires { F.IsAlwaysCallable says }
    ensures { (told : ℕ → Result T Fault) → ((v : ℕ) (o : Result T Fault) → F.post says v o → o ≡ told v) → Reads (saying told) (standing r.old) (standing r.new) result }
{
    let place = r.place();
    let number = read_number(r)?;
    says(number).map_err(|fault| fault.at(place))
}

// A value that fits; any other is at fault.
fn where_fits<T: Drop>(value: T, fits: bool, fault: Fault) -> Result<T, Fault>
    ensures { result ≡ where_fits (λ _. fits) fault value }
{
    fits.then_some(value).ok_or(fault)
}

// Whether a value is in a range, its end included: `contains` leaves the end out once the range was iterated.
fn is_within<T: PartialOrd>(value: &T, range: &RangeInclusive<T>) -> bool
    ensures { result ≡ (partial_le T.partial_cmp range.now.start value.now && partial_le T.partial_cmp value.now range.now.end) }
{
    range.start() <= value && value <= range.end()
}

// A number in the range.
pub fn read_field(r: &mut Reader, range: RangeInclusive<u32>) -> Result<u32, Refusal>
    ensures { Reads (field range.start range.end) (standing r.old) (standing r.new) result }
{
    read_as(r, |v| {
        where_fits(v, is_within(&v, &range), Fault::OutOfRange)
    })
}

// The date of the contract.
pub fn read_date(r: &mut Reader) -> Result<u32, Refusal>
    ensures { Reads date (standing r.old) (standing r.new) result }
{
    read_as(r, |v| where_fits(v, days::is_day(v), Fault::NoDay))
}

// A signed value in the range.
pub fn read_signed(r: &mut Reader, range: RangeInclusive<i64>) -> Result<i32, Refusal>
    ensures { Reads (signed (between range.start range.end)) (standing r.old) (standing r.new) result }
{
    read_as(r, |v| {
        let value = signed_of(v);
        let fits = is_within(&i64::from(value), &range);
        where_fits(value, fits, Fault::OutOfRange)
    })
}

// A signed value whose size is in the range.
pub fn read_sized(r: &mut Reader, range: RangeInclusive<u32>) -> Result<i32, Refusal>
    ensures { Reads (signed (in_size range.start range.end)) (standing r.old) (standing r.new) result }
{
    read_as(r, |v| {
        let value = signed_of(v);
        let fits = is_within(&value.unsigned_abs(), &range);
        where_fits(value, fits, Fault::OutOfRange)
    })
}
