// What a segment does to the display set that is open (01, module 6).
ghost use Rattle.std.specs.Prelude.{◌≡◌};
ghost use Rattle.pgs_base.specs.Outcome.{outcome, outcome_of};
ghost use Rattle.pgs_set.specs.Sets.{kind_verdict, state_after};

use pgs_base::refusal::Refusal;
use pgs_views::segment_type::SegmentType;

// Whether a set is open, and whether it has a WDS.
// Stays an enum of its own: `Option<bool>` would name neither the open set nor the WDS, as `None` and `Some(true)`.
#[derive(Clone, Copy, Debug, PartialEq, Eq)]
pub enum Grouping {
    Outside,
    Inside { windows: bool },
}

fn group_outside(kind: SegmentType) -> Result<Grouping, Refusal>
    ensures { outcome result ≡ outcome_of (kind_verdict Grouping.Outside kind) (state_after Grouping.Outside kind) }
{
    match kind {
        SegmentType::Pcs => Ok(Grouping::Inside { windows: false }),
        SegmentType::Wds => Err(Refusal::WdsOutsideSet),
        SegmentType::Pds => Err(Refusal::PdsOutsideSet),
        SegmentType::Ods => Err(Refusal::OdsOutsideSet),
        SegmentType::End => Err(Refusal::EndOutsideSet),
        SegmentType::Other(_) => Err(Refusal::UnknownOutsideSet),
    }
}

fn group_inside(windows: bool, kind: SegmentType) -> Result<Grouping, Refusal>
    ensures { outcome result ≡ outcome_of (kind_verdict (Grouping.Inside windows) kind) (state_after (Grouping.Inside windows) kind) }
{
    match kind {
        SegmentType::Pcs => Err(Refusal::PcsInOpenSet),
        SegmentType::Wds => {
            if windows {
                Err(Refusal::SecondWds)
            } else {
                Ok(Grouping::Inside { windows: true })
            }
        }
        SegmentType::End => Ok(Grouping::Outside),
        SegmentType::Pds | SegmentType::Ods | SegmentType::Other(_) => {
            Ok(Grouping::Inside { windows })
        }
    }
}

// Takes one more segment.
pub fn group_segment(state: Grouping, kind: SegmentType) -> Result<Grouping, Refusal>
    ensures { outcome result ≡ outcome_of (kind_verdict state kind) (state_after state kind) }
{
    match state {
        Grouping::Outside => group_outside(kind),
        Grouping::Inside { windows } => group_inside(windows, kind),
    }
}
