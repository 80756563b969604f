// Breaks and repairs: the first repair of an order for one or two lost lots.
#![tactic(auto)]

ghost use Rattle.std.specs.Prelude.{◌≡◌, ◌+◌, ◌-◌, ◌≤◌, ◌<◌, length, get_or, take};
ghost use Rattle.lex.specs.Every.{every, one_if, count};
ghost use Rattle.week.specs.Refusal.{answer};
ghost use Rattle.week.specs.Rules.{bit_of};
ghost use Rattle.week.specs.Tables.{lent};
ghost use Rattle.repair.specs.Repair.{is_lost, replaces, yields, helps, may_go, moves, goes_at, moves_at, mends_half, mends_at, repair_half, stays, stays_at, must_move, few_ahead, leads_at};
ghost use Rattle.repair.specs.Found.{lots_of, case_of, rules_in, Counts, Picks, Gives};
ghost use Rattle.repair.specs.Break.{LostList, lot_below, lot_ascends, lost_ok, row_number, row_count};
ghost use Rattle.repair.specs.Service.{repair_lengths, Repaired, row_numbers, row_lengths, row_answer, row_part};

use week::{Lot, Numbers, Order, Refusal, Slot, Week};

// The lots lost at once: two in ascending order, or one, which is then named twice.
#[derive(Clone, Copy, Debug, PartialEq, Eq)]
pub struct Lost(pub Lot, pub Lot);

impl Lost {
    // Whether a lot is lost.
    #[tactic(auto, using(crate::proofs::Mends::lost_either))]
    pub fn has(self, p: Lot) -> bool
        ensures { result ≡ is_lost (lots_of self) p.0 }
    {
        p == self.0 || p == self.1
    }
}

// An order of a week, and the lots that are lost from it.
#[derive(Clone, Copy)]
pub struct Case<'a> {
    pub week: Week<'a>,
    pub order: &'a [u8],
    pub lost: Lost,
}

// The beginning of a repair: the slots that `to` gives the lots before p, of which `moved` move.
#[derive(Clone, Copy)]
struct Begun<'a> {
    to: &'a [u8],
    p: Lot,
    moved: u32,
}

// Whether a lost lot may go from slot w to slot v: another slot, and under alternative rule 1 one beyond the gap.
#[tactic(auto, unfolding(crate::specs::Repair::replaces))]
fn replaces_slot(numbers: Numbers, w: Slot, v: Slot) -> bool
    ensures { result ≡ replaces numbers w.0 v.0 }
{
    let beyond = u64::from(w.0) + u64::from(numbers.gap) < u64::from(v.0);
    w != v && (numbers.alternative != 1 || beyond)
}

// Whether a lot that is not lost may go from slot w to slot v: it stays, or w is in its give word.
#[tactic(auto, unfolding(crate::specs::Repair::yields))]
fn yields_slot(give: u16, w: Slot, v: Slot) -> bool
    ensures { result ≡ yields give w.0 v.0 }
{
    w == v || week::bit(give, w)
}

// Whether the helper rule lets a lot go from slot w to slot v.
#[tactic(auto, unfolding(crate::specs::Repair::helps))]
fn helps_slot(numbers: Numbers, w: Slot, v: Slot) -> bool
    ensures { result ≡ helps numbers w.0 v.0 }
{
    numbers.helper != 1 || w <= v
}

impl Case<'_> {
    // Whether a lot may go from where it stands to slot v, whatever the other lots do.
    pub fn may_go(&self, p: Lot, v: Slot) -> bool
        ensures { result ≡ may_go (case_of self.now) p.0 v.0 }
    {
        let w = week::slot_in(self.order, p);
        if !helps_slot(self.week.numbers, w, v) {
            return false;
        }
        if self.lost.has(p) {
            return replaces_slot(self.week.numbers, w, v);
        }
        yields_slot(week::word_of(self.week.give, p), w, v)
    }

    // Whether a lot is not lost, and slot v is not where it stands.
    #[tactic(auto, unfolding(crate::specs::Repair::moves))]
    fn moves_to(&self, p: Lot, v: Slot) -> bool
        ensures { result ≡ moves (case_of self.now) p.0 v.0 }
    {
        !self.lost.has(p) && week::slot_in(self.order, p) != v
    }

    // Whether a lot moves, of those that are not lost, where `to` has it.
    #[tactic(auto, unfolding(crate::specs::Repair::moves_at))]
    fn moves_at(&self, to: &[u8], p: Lot) -> bool
        ensures { result ≡ moves_at (case_of self.now) to.now p.0 }
    {
        self.moves_to(p, week::slot_in(to, p))
    }

    // Whether every lot may go where `to` has it.
    fn all_go(&self, to: &[u8]) -> bool
        requires { length to.now ≤ 24 }
        ensures { result ≡ every (goes_at (case_of self.now) to.now) (length to.now) }
    {
        (0..to.len() as u8).all(|p| self.may_go(Lot(p), week::slot_in(to, Lot(p))))
    }

    // How many of the first d lots move, of those that are not lost, where `to` has them.
    fn count_moves(&self, to: &[u8], d: u8) -> u32
        ensures { result ≡ count (moves_at (case_of self.now) to.now) d }
    {
        let mut moved = 0;
        for p in 0..d {
            moved += u32::from(self.moves_at(to, Lot(p)));
        }
        moved
    }

    // Whether `to` is a repair. Inner layers share it: they know that it has at most 24 places.
    #[tactic(auto, unfolding(crate::specs::Repair::mends_half))]
    pub fn is_repair(&self, to: &[u8]) -> bool
        requires { length to.now ≤ 24 }
        ensures { result ≡ mends_half (rules_in self.now) (case_of self.now) to.now }
    {
        self.week.rules().keeps(to)
            && self.all_go(to)
            && self.count_moves(to, to.len() as u8) <= self.week.numbers.b
    }

    // Whether the next lot of a beginning may take slot v in a repair.
    #[tactic(auto, unfolding(crate::specs::Repair::mends_at), using(crate::proofs::Walks::byte_one))]
    fn mends_at(&self, begun: &Begun<'_>, v: Slot) -> bool
        requires { Counts self.now begun.now }
        ensures { result ≡ mends_at (rules_in self.now) (case_of self.now) begun.now.to.now begun.now.p.0 v.0 }
    {
        self.may_go(begun.p, v)
            && begun.moved + u32::from(self.moves_to(begun.p, v)) <= self.week.numbers.b
            && self.week.rules().fits_at(begun.to, begun.p, v)
    }

    // Whether lot q may stay where it stands, with lot u in slot x: u stands there as before, or the two may stand together.
    #[tactic(auto, unfolding(crate::specs::Repair::stays))]
    fn stays_with(&self, q: Lot, u: Lot, x: Slot) -> bool
        ensures { result ≡ stays (rules_in self.now) (case_of self.now) q.0 u.0 x.0 }
    {
        week::slot_in(self.order, u) == x
            || self
                .week
                .rules()
                .may_stand(q, week::slot_in(self.order, q), u, x)
    }

    // Whether lot q may stay where it stands, with the lots of a beginning where it has them.
    fn stays_behind(&self, begun: &Begun<'_>, q: Lot) -> bool
        ensures { result ≡ every (stays_at (rules_in self.now) (case_of self.now) begun.now.to.now q.0) begun.now.p.0 }
    {
        (0..begun.p.0).all(|u| self.stays_with(q, Lot(u), week::slot_in(begun.to, Lot(u))))
    }

    // Whether lot q, later than the next lot of a beginning and not lost, cannot stay where it stands when that one takes slot v.
    #[tactic(auto, unfolding(crate::specs::Repair::must_move))]
    fn must_move(&self, begun: &Begun<'_>, v: Slot, q: Lot) -> bool
        ensures { result ≡ must_move (rules_in self.now) (case_of self.now) begun.now.to.now begun.now.p.0 v.0 q.0 }
    {
        begun.p < q
            && !self.lost.has(q)
            && !(self.stays_with(q, begun.p, v) && self.stays_behind(begun, q))
    }

    // Whether a lot stands in a slot of its give word.
    fn gives(&self, p: Lot) -> bool
        ensures { result ≡ bit_of (get_or self.now.week.give.now p.0 0) (get_or self.now.order.now p.0 0) }
    {
        week::bit(
            week::word_of(self.week.give, p),
            week::slot_in(self.order, p),
        )
    }

    // Whether the later lots that must move may, when the next lot of a beginning takes slot v, and all that move are at most b.
    fn few_ahead(&self, begun: &Begun<'_>, v: Slot) -> bool
        requires counts { Counts self.now begun.now }
        requires few { begun.now.moved + one_if (moves (case_of self.now) begun.now.p.0 v.0) ≤ self.now.week.numbers.b }
        ensures { result ≡ few_ahead (rules_in self.now) (case_of self.now) begun.now.to.now begun.now.p.0 v.0 }
    {
        let mut all = begun.moved + u32::from(self.moves_to(begun.p, v));
        for q in begun.p.0 + 1..self.week.numbers.n as u8 {
            if self.must_move(begun, v, Lot(q)) {
                if self.week.numbers.b <= all || !self.gives(Lot(q)) {
                    return false;
                }
                all += 1;
            }
        }
        true
    }

    // Whether a repair may go on with slot v for the next lot of a beginning. Only a lot that leaves its place makes others move.
    #[tactic(auto, unfolding(crate::specs::Repair::leads_at, crate::specs::Repair::ahead))]
    fn leads_at(&self, begun: &Begun<'_>, v: Slot) -> bool
        requires { Counts self.now begun.now }
        ensures { result ≡ leads_at (rules_in self.now) (case_of self.now) begun.now.to.now begun.now.p.0 v.0 }
    {
        if !self.mends_at(begun, v) {
            return false;
        }
        week::slot_in(self.order, begun.p) == v || self.few_ahead(begun, v)
    }

    // The first slot from `from` on with which a repair may go on for lot p, behind the slots that `to` gives the lots before p.
    fn pick_slot(&self, to: &[u8], p: Lot, from: Slot) -> Option<Slot>
        requires { (p.0 < self.now.week.numbers.n) × (self.now.week.numbers.n ≤ 24) }
        ensures { Picks (leads_at (rules_in self.now) (case_of self.now) to.now p.0) from.0 result }
    {
        let moved = self.count_moves(to, p.0);
        let begun = Begun { to, p, moved };
        (from.0..16)
            .find(|v| self.leads_at(&begun, Slot(*v)))
            .map(Slot)
    }

    // The first repair: lot after lot, back one lot where no slot is left. Inner layers share it: they know that there are 1 to 24
    // lots.
    pub fn first_repair(&self) -> Option<Order>
        requires { (1 ≤ self.now.week.numbers.n) × (self.now.week.numbers.n ≤ 24) }
        ensures { Gives (repair_half (rules_in self.now) (case_of self.now)) result }
    {
        let n = self.week.numbers.n as usize;
        let mut slots = [0u8; 24];
        let mut d: usize = 0;
        let mut from: u8 = 0;
        // A search that goes back as well as on: no range or iterator walks so, and the loop keeps its own depth d.
        'lots: loop {
            match self.pick_slot(&slots, Lot(d as u8), Slot(from)) {
                Some(v) => {
                    slots[d] = v.0;
                    d += 1;
                    if d == n {
                        return Some(Order { slots });
                    }
                    from = 0;
                }
                None => {
                    if d == 0 {
                        return None;
                    }
                    d -= 1;
                    from = slots[d] + 1;
                }
            }
        }
    }
}

// Whether every lost lot is below n.
fn all_below(n: u32, lost: &[u8]) -> bool
    ensures { result ≡ every (lot_below n lost.now) (length lost.now) }
{
    lost.iter().all(|p| u32::from(*p) < n)
}

// Whether every lost lot is below the next.
fn all_ascend(lost: &[u8]) -> bool
    ensures { result ≡ every (lot_ascends lost.now) (length lost.now - 1) }
{
    lost.is_sorted_by(|p, next| *p < *next)
}

// Whether the lost lots are `least` to `most` in number, below n and ascending.
#[tactic(auto, unfolding(crate::specs::Break::lost_ok))]
fn lost_ok(n: u32, least: usize, most: usize, lost: &[u8]) -> bool
    ensures { result ≡ lost_ok n least most lost.now }
{
    least <= lost.len() && lost.len() <= most && all_below(n, lost) && all_ascend(lost)
}

// One or two ascending lots as a loss: the first and the last.
fn lost_of(lost: &[u8]) -> Lost
    requires { LostList lost.now }
    ensures { lots_of result ≡ lost.now }
{
    Lost(Lot(lost[0]), Lot(lost[lost.len() - 1]))
}

// The first bytes of `slots` into `out`, as many as it holds. Inner layers share it: they know that `slots` has as many.
pub fn copy_slots(slots: &[u8], out: &mut [u8])
    requires { length out.old ≤ length slots.now }
    ensures { out.new ≡ take (length out.old) slots.now }
{
    // Byte by byte: copy_from_slice would make the C archive ask for memmove, which it has not.
    for (i, to) in out.iter_mut().enumerate() {
        *to = slots[i];
    }
}

// Whether the order and the answer's buffer have n bytes.
#[tactic(auto, unfolding(crate::specs::Service::repair_lengths))]
fn repair_lengths(n: u32, order: &[u8], out: &[u8]) -> bool
    ensures { result ≡ repair_lengths n order.now out.now }
{
    order.len() == n as usize && out.len() == n as usize
}

// The first repair of `order` for the lots in `lost`, into `out`. Refused, with 1, 2, 3, 4, 6 or 8, `out` is as it was. Neither a
// nor the loss words matter beyond being judged: the lots are lost in fact.
pub fn repair(week: &Week<'_>, order: &[u8], lost: &[u8], out: &mut [u8]) -> Result<(), Refusal>
    ensures { Repaired (lent week.now) order.now lost.now out.old (answer result) out.new }
{
    let n = week.numbers.n;
    let one = lost_ok(n, 1, 2, lost);
    let two = repair_lengths(n, order, out);
    tables::join(one, two, tables::judge(week))?;
    if !week.rules().keeps(order) {
        return Err(Refusal::Order);
    }
    let case = Case {
        week: *week,
        order,
        lost: lost_of(lost),
    };
    let Some(found) = case.first_repair() else {
        return Err(Refusal::NoRepair);
    };
    let slots = found.slots;
    copy_slots(&slots, out);
    Ok(())
}

// Refusal 1 of row, of its two numbers.
#[tactic(auto, unfolding(crate::specs::Service::row_numbers))]
fn row_numbers(n: u32, a: u32) -> bool
    ensures { result ≡ row_numbers n a }
{
    1 <= n && n <= 24 && a <= 2
}

// How many rows a repair table has. Inner layers share it: they know the limits of n and a.
pub fn row_count(n: u32, a: u32) -> usize
    requires { (1 ≤ n) × ((n ≤ 24) × (a ≤ 2)) }
    ensures { result ≡ row_count n a }
{
    let lots = n as usize;
    match a {
        0 => 0,
        1 => lots,
        _ => lots + lots * (lots - 1) / 2,
    }
}

// The number of the row that stands for a loss.
fn row_number(n: u32, lost: Lost) -> usize
    requires { (n ≤ 24) × ((lost.0.0 ≤ lost.1.0) × (lost.1.0 < n)) }
    ensures { result ≡ row_number n (lots_of lost) }
{
    let Lost(first, last) = lost;
    if first == last {
        return usize::from(first.0);
    }
    n as usize + pairs::pair_number(n, first, last)
}

// Whether an order has n bytes and its table n bytes a row. Inner layers share it: they know the limits of n and a.
#[tactic(auto, unfolding(crate::specs::Service::row_lengths))]
pub fn row_lengths(n: u32, a: u32, order: &[u8], table: &[u8]) -> bool
    requires { (1 ≤ n) × ((n ≤ 24) × (a ≤ 2)) }
    ensures { result ≡ row_lengths n a order.now table.now }
{
    let lots = n as usize;
    order.len() == lots && table.len() == row_count(n, a) * lots
}

// Why row refuses the same inputs: with 1 or 2.
pub fn row_refusal(n: u32, a: u32, order: &[u8], table: &[u8], lost: &[u8]) -> Result<(), Refusal>
    ensures { answer result ≡ row_answer n a order.now table.now lost.now }
{
    if !row_numbers(n, a) || !lost_ok(n, 0, a as usize, lost) {
        return Err(Refusal::Numbers);
    }
    if !row_lengths(n, a, order, table) {
        return Err(Refusal::Lengths);
    }
    Ok(())
}

// The order to run: the order itself where nothing was lost, otherwise the table's row for the lost lots, as a part of what was
// lent. Refused, it is an empty part of the order and no Err: what `row` tells may not change, and it never failed.
pub fn row<'a>(n: u32, a: u32, order: &'a [u8], table: &'a [u8], lost: &[u8]) -> &'a [u8]
    ensures { result.now ≡ row_part n a order.now table.now lost.now }
{
    if row_refusal(n, a, order, table, lost).is_err() {
        return &order[0..0];
    }
    if lost.is_empty() {
        return order;
    }
    let lots = n as usize;
    let from = row_number(n, lost_of(lost)) * lots;
    &table[from..from + lots]
}
