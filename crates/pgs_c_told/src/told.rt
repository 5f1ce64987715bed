// What a call tells of an answer: 0 and what an accepted one gives, or the number of a refusal.
ghost use Rattle.std.specs.Prelude.{◌≡◌};
ghost use Rattle.pgs_base.specs.Outcome.{outcome, verdict_of};
ghost use Rattle.pgs_calls.specs.Calls.{code_of};
ghost use Rattle.pgs_c_told.specs.Told.{code_by, set_by};

use pgs_base::refusal::Refusal;

// Stores what an accepted answer gives in the caller's cell. A refused one leaves the cell as it was.
pub fn stored<C: Copy>(answer: Result<C, Refusal>, cell: &mut C) -> u8
    ensures value { result ≡ code_by (outcome answer) }
    ensures cell_after { cell.new ≡ set_by (outcome answer) cell.old }
{
    match answer {
        Err(why) => why.number(),
        Ok(given) => {
            *cell = given;
            0
        }
    }
}

// The same of an answer that counts: bytes that were written, or records that were filled.
pub fn told(answer: Result<usize, Refusal>, count: &mut u64) -> u8
    ensures value { result ≡ code_by (outcome answer) }
    ensures count_after { count.new ≡ set_by (outcome answer) count.old }
{
    stored(answer.map(|n| n as u64), count)
}

// The same of an answer that gives nothing.
pub fn code(answer: Result<(), Refusal>) -> u8
    ensures { result ≡ code_of (verdict_of answer) }
{
    stored(answer, &mut ())
}
