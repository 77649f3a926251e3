// Runs the leaves on worked values; the expected output stands in the file `stdout`.

#![tactic(auto)]

ghost use Rattle.std.specs.Prelude.{◌<◌, length};

use decimal::Decimal;
use reader::Reader;

// A number on a line of its own.
fn show<N: Decimal>(rt: &impl Print, v: N)
    requires { length (N.text v) < 32 }
{
    let mut line = [0u8; 32];
    let end = decimal::put_field(&mut line, v, b'\n');
    let _ = rt.write_all(&line[..end]);
}

// The number at the front of some bytes, and the place after it, or that there is none.
fn show_number(rt: &impl Print, bytes: &[u8]) {
    let mut reader = Reader::new(bytes);
    let _ = match reader.number() {
        Some(v) => {
            let next = reader.place();
            println!(rt; "{v} {next}")
        }
        None => println!(rt; "faulty"),
    };
}

// "300 is AC 02 hexadecimal; 80 00 is refused"; the empty file; the greatest number, and one more.
fn numbers(rt: &impl Print) {
    show_number(rt, &[0xAC, 0x02]);
    show_number(rt, &[0x80, 0x00]);
    show_number(rt, &[]);
    show_number(rt, &[0xFF, 0xFF, 0xFF, 0xFF, 0x0F]);
    show_number(rt, &[0x80, 0x80, 0x80, 0x80, 0x10]);
    show_number(rt, &[0x80]);
}

// Signed values: −25,000 is written as 49,999.
#[tactic(auto, using(crate::proofs::Short::short))]
fn signed_values(rt: &impl Print) {
    show(rt, i64::from(file_numbers::signed_of(49999)));
    show(rt, i64::from(file_numbers::written_as(-25000)));
    show(rt, i64::from(file_numbers::signed_of(4294967295)));
    show(rt, i64::from(file_numbers::byte_count(0)));
    show(rt, i64::from(file_numbers::byte_count(127)));
    show(rt, i64::from(file_numbers::byte_count(128)));
    show(rt, i64::from(file_numbers::byte_count(4294967295)));
}

// "Truncating negative drops towards zero: −68.75 becomes −68"; exact halves go away from zero.
#[tactic(auto, using(crate::proofs::Short::short))]
fn roundings(rt: &impl Print) {
    show(rt, integers::round_div(-6875, 100));
    show(rt, integers::round_div(-715, 10));
    show(rt, integers::round_div(715, 10));
}

// The least and the greatest number of 64 bits, and of those that are rounded.
#[tactic(auto, using(crate::proofs::Short::short))]
fn widest(rt: &impl Print) {
    show(rt, i64::MIN);
    show(rt, i64::MAX);
    show(rt, 0_i64);
    show(rt, integers::round_div(-1000000000000000000, 1));
    show(
        rt,
        integers::round_div(1000000000000000000, 1000000000000000000),
    );
    show(
        rt,
        integers::div_floor(-9223372036854775808, 9223372036854775807),
    );
    show(
        rt,
        integers::rem_floor(-9223372036854775808, 9223372036854775807),
    );
}

// Over a divisor that i64 does not hold: an exact half and just below it, and two rests that together u64 does not hold.
#[tactic(auto, using(crate::proofs::Short::short))]
fn sums(rt: &impl Print) {
    show(
        rt,
        integers::nearest_sum(1000, 4990000000000000000, 0, 9980000000000000000),
    );
    show(
        rt,
        integers::nearest_sum(1000, 4989999999999999999, 0, 9980000000000000000),
    );
    show(
        rt,
        integers::nearest_sum(
            1000,
            9979999999999999999,
            9979999999999999999,
            9980000000000000000,
        ),
    );
}

fn main(rt: HostRuntime) {
    numbers(&rt);
    signed_values(&rt);
    roundings(&rt);
    widest(&rt);
    sums(&rt);
}
