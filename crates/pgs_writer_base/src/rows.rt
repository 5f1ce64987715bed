// The rows of a caller's list, written as the fields of records.
ghost use Rattle.std.specs.Prelude.{◌≡◌, ℕ, Bool, List, length};
ghost use Rattle.std.proofs.lemmas.List.Edits.{sets};
ghost use Rattle.pgs_encoding.specs.Layout.{Field, written, each, record_bytes};

// How rows of one kind are written: those of placements, of windows or of entries.
pub trait RowWriter {
    type Row: Copy;

    // The fields of the record that a row stands for.
    ghost fields: { Self.Row → List Field };

    // Whether it can be written.
    ghost fits: { Self.Row → Bool };

    fn fits(row: Self::Row) -> bool
        ensures { result ≡ fits row };

    // How many bytes it takes.
    fn size(row: Self::Row) -> u16
        ensures { result ≡ length (written (fields row)) };

    // Stores it at the front of the output. What is past the end is left out.
    fn put(out: &mut [u8], row: Self::Row)
        ensures { out.new ≡ sets out.old 0 (written (fields row)) };
}

pub fn rows_fit<W: RowWriter>(rows: &[W::Row]) -> bool
    ensures { result ≡ each W.fits rows.now }
{
    rows.iter().all(|row| W::fits(*row))
}

// Stores the rows from place `first` on. What is past the end is left out.
pub fn put_rows<W: RowWriter>(out: &mut [u8], first: usize, rows: &[W::Row])
    ensures { out.new ≡ sets out.old first (record_bytes W.fields rows.now) }
{
    let mut at = first;
    // Stays a place: parts of one size, as `chunks_mut` gives, do not fit placements, of 8 bytes or 16; and the promise is of the whole
    // output, which a loop that goes on in the rest of it no longer has.
    for row in rows {
        if out.len() <= at {
            return;
        }
        W::put(&mut out[at..], *row);
        at += usize::from(W::size(*row));
    }
}
