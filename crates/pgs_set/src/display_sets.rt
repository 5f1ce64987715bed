// The display sets of a stream that is accepted.
ghost use Rattle.std.specs.Prelude.{◌≡◌, MatchResult};
ghost use Rattle.pgs_base.specs.Outcome.{accepted, refused};
ghost use Rattle.pgs_base.specs.Refusals.{number_of};
ghost use Rattle.pgs_set.specs.Sets.{set_count, sets_verdict};
ghost use Rattle.pgs_set.specs.Walks.{Standing};
ghost use Rattle.pgs_set.specs.declared.grouping.Grouping.TheVariants.{Outside};

use crate::open_set::PlacedSet;
use crate::set::{SetRecord, group_display_sets};
use pgs_base::refusal::Refusal;

// The display sets of a stream: it is accepted, and so is the grouping of its segments.
#[derive(Clone, Copy, Debug)]
pub struct DisplaySets<'a> {
    pub stream: &'a [u8],
    // how many they are
    pub count: usize,
    pub ghost verdict: { sets_verdict stream.now ≡ accepted },
    pub ghost counted: { count ≡ set_count stream.now },
}

impl<'a> DisplaySets<'a> {
    ghost use Rattle.pgs_set.specs.Records.{records_left, set_records};

    // Reads a stream.
    pub fn read(s: &'a [u8]) -> Result<DisplaySets<'a>, Refusal>
        ensures { MatchResult result (λ d. d.stream.now ≡ s.now) (λ e. sets_verdict s.now ≡ refused (number_of e)) }
    {
        let count = group_display_sets(s)?;
        Ok(DisplaySets { stream: s, count })
    }

    // The record of each set.
    pub fn records(self) -> SetRecords<'a>
        ensures { records_left result ≡ set_records self.entry.stream.now }
    {
        SetRecords {
            stream: self.stream,
            at: 0,
        }
    }
}

// What `records` makes: the sets from a place on are still to come.
#[derive(Clone, Copy, Debug)]
pub struct SetRecords<'a> {
    stream: &'a [u8],
    at: usize,
    ghost standing: { Standing Outside stream.now at },
}

impl<'a> Iterator for SetRecords<'a> {
    ghost use Rattle.std.specs.Iterator.{YieldsFirst, item_count};
    ghost use Rattle.pgs_set.specs.Records.{records_left};

    type Item = SetRecord;

    ghost next_gives = { YieldsFirst records_left };

    ghost remaining = { item_count records_left };

    fn next(&mut self) -> Option<SetRecord> {
        let s = self.stream;
        let place = self.at;
        if s.len() <= place {
            return None;
        }
        let (pcs, others) = PlacedSet { stream: s, place }.split_first();
        let end = others.end();
        self.at = end;
        Some(SetRecord {
            place,
            end,
            pts: pcs.header.pts,
        })
    }
}
