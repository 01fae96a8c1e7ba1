// The odds of a circle of k threads.
ghost use Rattle.std.specs.Prelude.{◌≡◌, ◌*◌, ◌<◌, ◌≤◌};
ghost use Rattle.output.specs.Odds.{factorial, odds_of, rounded};

use crate::OutputCause;

// The largest k for which the parts of the fraction fit 64 bits.
const LAST: u32 = 15;

// The product of the numbers from 1 to k.
fn factorial(k: u32) -> u64
    requires { k ≤ 15 }
    ensures { result ≡ factorial k }
{
    (1..=u64::from(k)).product()
}

// above / below, rounded down.
fn round(above: u64, below: u64) -> u32
    requires below_nonzero { 0 < below }
    requires above_bound { above ≤ 10000 * below }
    ensures { result ≡ rounded above below }
{
    (above / below) as u32
}

// k! / (n * k ^ k) in ten thousandths, rounded down, for k from 2 to 64 and n from 1 to 8.
// Past LAST that is less than 1.
pub fn odds(k: u32, n: u32) -> Result<u32, OutputCause>
    ensures { result ≡ odds_of k n }
{
    match (k, n) {
        (2..=LAST, 1..=8) => {
            let power = u64::from(k).pow(k);
            Ok(round(10_000 * factorial(k), u64::from(n) * power))
        }
        (2..=64, 1..=8) => Ok(0),
        _ => Err(OutputCause::Odds),
    }
}
