// What a super solution is, and of its code what solving, checking and printing share: the losses that the rows of a repair table
// stand for, and which of them break an order.
#![tactic(auto)]

ghost use Rattle.std.specs.Prelude.{◌≡◌, [], ◌≤◌, ◌<◌, get_or};
ghost use Rattle.repair.specs.Break.{lost_sets, breaks, row_count};
ghost use Rattle.repair.specs.Found.{lots_of};
ghost use Rattle.week.specs.Rules.{bit_of};

use repair::{Case, Lost};
use week::Lot;

// The loss that row i of a repair table stands for: a single lot, or behind those a pair. Inner layers share it: they know the limits.
pub fn lost_at(n: u32, i: usize) -> Lost
    requires { (1 ≤ n) × ((n ≤ 24) × (i < row_count n 2)) }
    ensures { lots_of result ≡ get_or (lost_sets n 2) i [] }
{
    let lots = n as usize;
    if i < lots {
        return Lost(Lot(i as u8), Lot(i as u8));
    }
    let pair = pairs::pair_at(n, i - lots);
    Lost(pair.low, pair.high)
}

// Whether a lot stands in a slot of its loss word.
fn may_lose(case: &Case<'_>, p: Lot) -> bool
    ensures { result ≡ bit_of (get_or case.now.week.loss.now p.0 0) (get_or case.now.order.now p.0 0) }
{
    week::bit(
        week::word_of(case.week.loss, p),
        week::slot_in(case.order, p),
    )
}

// Whether each lost lot stands in a slot of its loss word.
#[tactic(auto, using(crate::proofs::Rows::breaks_both))]
pub fn is_break(case: &Case<'_>) -> bool
    ensures { result ≡ breaks case.now.week.loss.now case.now.order.now (lots_of case.now.lost) }
{
    may_lose(case, case.lost.0) && may_lose(case, case.lost.1)
}
