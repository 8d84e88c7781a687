ghost use Rattle.cg_follow.specs.LineLaws.{ExactLines};
ghost use Rattle.cg_follow.specs.Laws.{RecordsAreExact, RecordsLead, FeedsGoOn, StayFollowers};

use cg_disk::Disk;
use cg_disk_records::lists_are_exact;
use cg_schedule::parts_are_exact;
use cg_text::tokens_are_exact;

/// Each record of a follower's disk has one spelling, which is read as it, and nothing else is read as it. So a first
/// record alone is the follower, a feed behind the others feeds it, and feeds of an order go on along it.
pub fn followers_are_exact()
    ensures exact { RecordsAreExact }
    ensures lead { RecordsLead }
    ensures go_on { FeedsGoOn }
{
    lists_are_exact();
}

/// A disk that a follower left stands for a follower whatever feeds, openings and crashes touch it: `NotAFollower`
/// never comes on it.
pub fn followers_stay_followers<D: Disk>()
    ensures { StayFollowers D.view }
{}

/// A line reads as an event of followers exactly where its tokens are those of the event's line, and the event is
/// within the limits.
pub fn follow_lines_are_exact()
    ensures { ExactLines }
{
    tokens_are_exact();
    parts_are_exact();
}
