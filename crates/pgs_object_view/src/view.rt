// The view of an object's data (01, module 7).
ghost use Rattle.std.specs.Prelude.{◌≡◌};
ghost use Rattle.pgs_object_view.specs.View.{part_of, shown_by};

// The part of `s` from `at`, of `n` bytes; empty where it would pass the end.
pub fn part<'a>(s: &'a [u8], at: usize, n: usize) -> &'a [u8]
    ensures { result.now ≡ part_of at n s.now }
{
    s.get(at..).and_then(|rest| rest.get(..n)).unwrap_or(&[])
}

// The data of an object, as a part of the stream or of the scratch, whichever holds it. A record that no call made, and that points
// outside its holder, shows the empty part.
pub fn object_data<'a>(stream: &'a [u8], scratch: &'a [u8], object: [u64; 7]) -> &'a [u8]
    ensures { result.now ≡ shown_by stream.now scratch.now object }
{
    let [.., holder, place, len] = object;
    let place = place as usize;
    let len = len as usize;
    // Stays a number: the record is a row of the C interface, and a row that no call made may name no holder.
    match holder {
        0 => part(stream, place, len),
        1 => part(scratch, place, len),
        _ => &[],
    }
}
