// What an operation is lent, and nowhere else: how many trade-offs it allows a node, how many work words these take, and these words made zero.
#![tactic(auto)]

ghost use Rattle.std.specs.Prelude.{◌≡◌, ℕ, ◌≤◌, length};
ghost use Rattle.sheets_rules.specs.Inside.Readers.{Says};
ghost use Rattle.covers.specs.Capacity.{work_words};
ghost use Rattle.covers.specs.Lending.{lent, cleared};

use sheets_rules::{Limits, Reason, Refusal};

// How many trade-offs a node may have, by the lengths of an output and of a work area that are lent to an operation which needs an output
// of `least` bytes.
pub fn lend(least: usize, output: usize, work: usize) -> Result<usize, Refusal>
    ensures { Says (λ (m n : ℕ). m ≡ n) (lent least output work) result }
{
    if output < least || work < Limits::WORK {
        return Err(Refusal {
            item: 0,
            reason: Reason::Short,
            place: 0,
        });
    }
    Ok(Limits::POINTS)
}

// How many work words so many trade-offs take.
pub fn words(most: usize) -> usize
    requires { most ≤ 254 }
    ensures { result ≡ work_words most }
{
    Limits::CURVES * (most + 1)
}

// Makes these words zero.
#[tactic(auto, unfolding(covers::specs::Lending::cleared))]
pub fn clear(work: &mut [u64], most: usize)
    requires { (most ≤ 254) × (work_words most ≤ length work.old) }
    ensures { work.new ≡ cleared (work_words most) work.old }
{
    work[..words(most)].fill(0);
}
