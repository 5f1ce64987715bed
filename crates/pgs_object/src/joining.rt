// Joining the data of chains in the scratch (01, module 7).
ghost use Rattle.std.specs.Prelude.{◌≡◌, ◌≤◌, length};
ghost use Rattle.pgs_base.specs.Outcome.{accepted, laid};
ghost use Rattle.pgs_reassembly.specs.Objects.{joined, with_id};
ghost use Rattle.pgs_reassembly.specs.Tables.{joined_in, joined_rows, open_fragments, AllJoinable};

use crate::chain::read_fragment;
use pgs_reassembly::ChainRow;
use pgs_set::open_set::OpenSet;

// Joins the data of the fragments with this id, in the segments of an open set: `out` is its own part of the scratch, exactly as long.
fn join_chain(set: OpenSet<'_>, id: u16, out: &mut [u8])
    requires { length out.old ≡ length (joined (with_id id (open_fragments set))) }
    ensures { out.new ≡ joined (with_id id (open_fragments set.entry)) }
{
    // Stays a place: of an output whose parts are taken off by `split_off_mut`, std does not say what the whole then holds.
    let mut k: usize = 0;
    for segment in set.segments() {
        if let Some(f) = read_fragment(set.stream, segment) {
            if f.ods.object_id == id {
                let stop = f.start + f.len;
                let end = k + f.len;
                out[k..end].copy_from_slice(&set.stream[f.start..stop]);
                k = end;
                // nothing is left to join, so that no further head is read
                if k == out.len() {
                    return;
                }
            }
        }
    }
}

// Joins the chains that are copied, one after another from the scratch's start, each in a part of its own.
pub(crate) fn join_objects(s: &[u8], rows: &[ChainRow], scratch: &mut [u8])
    requires joinable { AllJoinable s.now rows.now }
    requires rows_in_bounds { joined_in rows.now ≤ length scratch.old }
    ensures { scratch.new ≡ laid accepted (joined_rows s.now rows.now) scratch.old }
{
    // Stays a place, as in `join_chain`.
    let mut at: usize = 0;
    for row in rows {
        if row.copied {
            let end = at + row.len;
            let open = OpenSet {
                stream: s,
                from: row.first.place,
            };
            join_chain(open, row.first.ods.object_id, &mut scratch[at..end]);
            at = end;
        }
    }
}
