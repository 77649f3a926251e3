// Counts the days among the numbers from 0 to 30,000,000, by the test that the reader of a file makes.

#![tactic(auto)]

ghost use Rattle.std.specs.Prelude.{◌≡◌};
ghost use Rattle.days.specs.Calendar.{days_below};

// How many numbers below an end are days.
fn days_below(end: u32) -> u32
    ensures { result ≡ days_below end }
{
    (0..end).filter(|number| days::is_day(*number)).count() as u32
}

fn main(rt: HostRuntime) {
    let count = days_below(30000001);
    let _ = println!(rt; "{count}");
}
