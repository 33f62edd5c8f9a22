// What a single step hands back, its clocks and what the cache predicted, as one number: it goes through a register,
// where a struct of two would go through memory.
// Stays two numbers in one: `timing_060_retire_at` of the C interface hands it back, and a struct costs speed.
ghost use Rattle.std.specs.Prelude.{◌≡◌, ◌%◌};
ghost use Rattle.cost.specs.Branch.{answer_number};
ghost use Rattle.in_place.specs.Retire.{clocks_in, answer_in};

use class_word::Clocks;
use cost::Answer;

pub fn told(cost: Clocks, answer: Answer) -> u64
    ensures { (clocks_in result ≡ cost) × (answer_in result ≡ answer_number answer) }
{
    let number = u8::from(answer);
    cost.0 as u64 + number as u64 * 4294967296
}

pub fn clocks_in(told: u64) -> Clocks
    ensures { result ≡ clocks_in told }
{
    Clocks((told % 4294967296) as u32)
}

// The number of an answer is below 256: no bit of it is lost.
pub fn answer_in(told: u64) -> u8
    ensures { result ≡ answer_in told % 256 }
{
    (told / 4294967296 % 256) as u8
}
