// The records of a body's list, tested and stored as rows in a caller's list.
ghost use Rattle.std.specs.Prelude.{◌≡◌, ◌+◌, ℕ, List, true, length, drop, leb, map, IfOk};
ghost use Rattle.pgs_base.specs.Bytes.{num};
ghost use Rattle.pgs_base.specs.Outcome.{outcome, outcome_of, verdict_of, unless, Delivered};
ghost use Rattle.pgs_records.specs.Records.{records, records_fit, records_size, counted_verdict, counted_list, counted_records};

use crate::BodyList;
use pgs_base::refusal::Refusal;

// A record of a body's list: a placement, a window or an entry.
pub trait ListRecord: Copy {
    // The record as a caller's list holds it.
    type Row: Copy;

    // The record at the front of bytes.
    ghost value: { List ℕ → Self };

    // How many bytes it takes.
    ghost size: { List ℕ → ℕ };

    // Its row.
    ghost to_row: { Self → Self.Row };

    fn size(l: &[u8]) -> usize
        ensures { result ≡ size l.now };

    fn read(l: &[u8]) -> Self
        ensures { result ≡ value l.now };

    // Stays beside `FromRecord` of pgs_base: each record has this one row, which the C interface lends; by `FromRecord`, all that reads a list
    // would take the row as a second type, to spare this method and its definition.
    fn to_row(self) -> Self::Row
        ensures { result ≡ to_row self };

    // How many bytes n records take, each of which must be whole.
    fn walk(l: &[u8], n: usize) -> Result<usize, Refusal>
        ensures { outcome result ≡ outcome_of (unless 4 (records_fit size n l.now)) (records_size size n l.now) }
    {
        let mut rest = l;
        for _ in 0..n {
            rest = rest.get(Self::size(rest)..).ok_or(Refusal::FieldPastEnd)?;
        }
        Ok(l.len() - rest.len())
    }
}

// The same for records that all take `size` bytes.
// Stays called by two types: an impl for all such records would want a second trait with each other member of `ListRecord`, to spare two lines a type.
pub fn walk_fixed(size: usize, l: &[u8], n: usize) -> Result<usize, Refusal>
    ensures { outcome result ≡ outcome_of (unless 4 (records_fit (λ _. size) n l.now)) (records_size (λ _. size) n l.now) }
{
    match size.checked_mul(n) {
        Some(len) if len <= l.len() => Ok(len),
        _ => Err(Refusal::FieldPastEnd),
    }
}

// Stores whole records, one in each row.
// Stays a loop beside `Placements` of pgs_pcs, whose list may be cut: by one iterator for both, which tests each step, 51 million entries take
// 0.17 s, not 0.03, as many windows 0.20, not 0.08, and as many placements 0.43, not 0.38.
fn fill_rows<R: ListRecord>(l: &[u8], rows: &mut [R::Row])
    requires { records_fit R.size (length rows.old) l.now ≡ true }
    ensures { rows.new ≡ map R.to_row (records R.value R.size (length rows.old) l.now) }
{
    let mut rest = l;
    for row in rows.iter_mut() {
        *row = R::read(rest).to_row();
        rest = &rest[R::size(rest)..];
    }
}

// Reads the n records at the front of `l` into the caller's list, from the front, and answers how many.
pub fn read_list<R: ListRecord>(l: &[u8], n: usize, list: &mut [R::Row]) -> Result<usize, Refusal>
    ensures { Delivered (unless 4 (records_fit R.size n l.now)) n (map R.to_row (records R.value R.size n l.now)) list.old list.new (outcome result) }
{
    R::walk(l, n)?;
    if list.len() < n {
        return Err(Refusal::BufferTooSmall);
    }
    fill_rows::<R>(l, &mut list[..n]);
    Ok(n)
}

// The count of a body's records, which is the byte at `at`, and what stands behind it.
fn counted(body: &[u8], at: usize) -> Result<(usize, &[u8]), Refusal>
    ensures verdict { verdict_of result ≡ unless 4 (leb (at + 1) (length body.now)) }
    ensures parts { IfOk result (λ p. (p.0 ≡ num 1 at body.now) × (p.1.now ≡ drop (at + 1) body.now)) }
{
    match body.get(at..) {
        Some([count, rest @ ..]) => Ok((usize::from(*count), rest)),
        _ => Err(Refusal::FieldPastEnd),
    }
}

// Whether these records are whole, and where they stand.
pub fn check_counted<R: ListRecord>(body: &[u8], at: usize) -> Result<BodyList, Refusal>
    ensures { outcome result ≡ outcome_of (counted_verdict R.size at body.now) (counted_list R.size at body.now) }
{
    let (count, rest) = counted(body, at)?;
    let len = R::walk(rest, count)?;
    Ok(BodyList {
        count,
        start: at + 1,
        len,
    })
}

// Reads them into the caller's list, from the front, and answers how many.
pub fn read_counted<R: ListRecord>(
    body: &[u8],
    at: usize,
    list: &mut [R::Row],
) -> Result<usize, Refusal>
    ensures { Delivered (counted_verdict R.size at body.now) (num 1 at body.now) (map R.to_row (counted_records R.value R.size at body.now))
        list.old list.new (outcome result) }
{
    let (count, rest) = counted(body, at)?;
    read_list::<R>(rest, count, list)
}
