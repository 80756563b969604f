// The search for the first super solution. It places the lots in any order, a lot with few slots left first, and goes back as soon as some lot has no
// slot left or the placed lots tell that they can not be finished; lot by lot its answers give the least slot that a super solution has.
// A slot over 15 means that a lot is not placed. A forward word has the slots that are left to a lot beside the placed ones.
#![tactic(auto)]

ghost use Rattle.std.specs.Prelude.{◌≡◌, ℕ, ◌+◌, ◌≤◌, ◌<◌, true, length, get_or, set, MatchResult};
ghost use Rattle.week.specs.Tables.{lent, refusal};
ghost use Rattle.repair.specs.Found.{Gives};
ghost use Rattle.robust.specs.Super.{first_super};
ghost use Rattle.parts.specs.Part.{placed, Least};
ghost use Rattle.cuts.specs.Cut.{robust_on};
ghost use Rattle.cuts.specs.Hopes.{Supers};
ghost use Rattle.cuts.specs.Reasons.{Exclusive, Why};
ghost use Rattle.hope.specs.Safe.{Going};
ghost use Rattle.finish.specs.Search.{lot_or, lot_of, Chosen, Next, Feeds, Finished, Known};

use repair::Lost;
use room::Partial;
use week::{Lot, Order, Slot, Week};

// The search's notebook, and any numbers in it are right: how often each lot stood in the way, its weight, and how many partial orders were tried. No
// number gets over 4294967295.
#[derive(Clone, Copy)]
pub struct Tally {
    pub weights: [u32; 24],
    pub tried: u32,
}

impl Tally {
    // A fresh one, in which every lot weighs 1.
    pub fn new() -> Tally
        ensures { result.tried ≡ 0 }
    {
        Tally {
            weights: [1; 24],
            tried: 0,
        }
    }

    // A partial order more is tried.
    fn count_try(&mut self) {
        self.tried = self.tried.saturating_add(1);
    }

    // A lot stood in the way.
    fn count_lot(&mut self, q: Lot) {
        if let Some(weight) = self.weights.get_mut(usize::from(q.0)) {
            *weight = weight.saturating_add(1);
        }
    }

    // A partial order more is tried, in which lot q was left without a slot.
    fn count_starved(&mut self, q: Lot) {
        self.count_try();
        self.count_lot(q);
    }

    // The lots of a loss stood in the way.
    fn count_lost(&mut self, lost: Lost) {
        self.count_lot(lost.0);
        if lost.0 != lost.1 {
            self.count_lot(lost.1);
        }
    }

    // A lot's weight; 1 for a lot over 23.
    fn weight_of(&self, q: Lot) -> u32 {
        self.weights.get(usize::from(q.0)).copied().unwrap_or(1)
    }
}

// A lot that may be placed next, how many slots are left to it, and its weight.
#[derive(Clone, Copy)]
struct Choice {
    lot: Lot,
    left: u32,
    weight: u32,
}

impl Choice {
    // Whether it has no more slots left per weight than another.
    fn is_as_good(&self, other: &Choice) -> bool {
        u64::from(self.left) * u64::from(other.weight)
            <= u64::from(other.left) * u64::from(self.weight)
    }
}

// The better of a choice among the lots before q and of q itself: q, if it is not placed and has fewer slots left per weight.
fn better(at: &Partial<'_>, tally: &Tally, best: Option<Choice>, q: Lot) -> Option<Choice>
    requires { (q.0 < at.now.week.numbers.n) × Chosen at.now.week.numbers.n at.now.order.now q.0 (lot_of best) }
    ensures { Chosen at.now.week.numbers.n at.now.order.now (q.0 + 1) (lot_of result) }
{
    if room::is_placed(at.order, q) {
        return best;
    }
    let here = Choice {
        lot: q,
        left: week::word_of(at.words, q).count_ones(),
        weight: tally.weight_of(q),
    };
    match best {
        Some(before) if before.is_as_good(&here) => best,
        _ => Some(here),
    }
}

// A lot that is not placed, one with the fewest slots left per weight. Any choice is right: this one makes the search short.
fn choose(at: &Partial<'_>, tally: &Tally) -> Option<Lot>
    requires { at.now.week.numbers.n ≤ 24 }
    ensures { Chosen at.now.week.numbers.n at.now.order.now at.now.week.numbers.n result }
{
    let mut best = None;
    for q in 0..at.week.numbers.n as u8 {
        best = better(at, tally, best, Lot(q));
    }
    best.map(|choice| choice.lot)
}

// The first lot that has no slot left once lot x gets slot v. `met` becomes the forward words then, as far as that lot.
fn first_starved(at: &Partial<'_>, x: Lot, v: Slot, met: &mut [u16; 24]) -> Option<Lot>
    requires { at.now.week.numbers.n ≤ 24 }
    ensures { Feeds (lent at.now.week) at.now.order.now at.now.words.now x.0 v.0 result met.new }
{
    let rules = at.week.rules();
    for q in 0..at.week.numbers.n as u8 {
        let lot = Lot(q);
        let word = room::met_word(&rules, at.words, x, v, lot);
        met[usize::from(q)] = word;
        if word == 0 && !room::is_placed(at.order, lot) {
            return Some(lot);
        }
    }
    None
}

// Why there is no super solution: a part of a partial order, a partial order that it extends, which none extends either.
#[derive(Clone, Copy)]
struct Part([u8; 24]);

// A partial order by value.
fn as_order(order: &[u8]) -> Order
    requires { length order.now ≡ 24 }
    ensures { result.slots ≡ order.now }
{
    let mut slots = [16u8; 24];
    slots.copy_from_slice(order);
    Order { slots }
}

// The same with lot x in slot v.
fn place(order: &[u8], x: Lot, v: Slot) -> Order
    requires { length order.now ≡ 24 }
    ensures { result.slots ≡ set order.now x.0 v.0 }
{
    as_order(order).placed(x, v)
}

// One more partial order is judged: whether it may still be finished, and if not why.
fn judge(at: &Partial<'_>, tally: &mut Tally) -> Result<(), Part>
    requires { Exclusive (lent at.now.week) at.now.groups.now × Going (lent at.now.week) at.now.order.now at.now.words.now }
    ensures { MatchResult result (λ _. robust_on (lent at.now.week) (placed 16 at.now.order.now) at.now.order.now ≡ true) (λ part. (length part.0 ≡ 24) × Why (lent at.now.week) at.now.order.now part.0) }
{
    tally.count_try();
    match hope::judge(at) {
        Ok(()) => Ok(()),
        Err(dead) => {
            if let Some(lost) = dead.lost {
                tally.count_lost(lost);
            }
            Err(Part(dead.why))
        }
    }
}

// Of the super solutions that extend a partial order, one with the least slot for lot x, if that is below `most`; else a part of the order that rules
// them out already. A slot fails for a part; where that does not place x no slot of x can help, and the search goes back to a lot that it places.
fn finish(at: &Partial<'_>, tally: &mut Tally, x: Option<Lot>, most: u8) -> Result<Order, Part>
    requires { Exclusive (lent at.now.week) at.now.groups.now × (Going (lent at.now.week) at.now.order.now at.now.words.now × (Chosen at.now.week.numbers.n at.now.order.now at.now.week.numbers.n x × (most ≤ 16))) }
    ensures { Finished (lent at.now.week) at.now.order.now (lot_or at.now.week.numbers.n x) most result }
{
    judge(at, tally)?;
    let Some(x) = x else {
        return Ok(as_order(at.order));
    };
    let rules = at.week.rules();
    let own = week::word_of(at.words, x);
    let mut why = hope::blamed(&rules, at.order, x, own);
    let mut met = [0u16; 24];
    'slots: for v in 0..most {
        if !week::bit(own, Slot(v)) {
            continue 'slots;
        }
        let with = place(at.order, x, Slot(v));
        if let Some(q) = first_starved(at, x, Slot(v), &mut met) {
            let part = hope::blamed(&rules, &with.slots, q, 0);
            hope::merge(&mut why, &part, x);
            tally.count_starved(q);
            continue 'slots;
        }
        let next = Partial {
            week: at.week,
            order: &with.slots,
            words: &met,
            groups: at.groups,
        };
        let y = choose(&next, tally);
        match finish(&next, tally, y, 16) {
            Ok(found) => return Ok(found),
            Err(part) => {
                if !room::is_placed(&part.0, x) {
                    return Err(part);
                }
                hope::merge(&mut why, &part.0, x);
            }
        }
    }
    Err(Part(why))
}

// Of the super solutions that extend a partial order, one with the least slot for lot x; `known` is one of them.
fn least(at: &Partial<'_>, tally: &mut Tally, x: Lot, known: Order) -> Order
    requires { Exclusive (lent at.now.week) at.now.groups.now × (Next (lent at.now.week) at.now.order.now at.now.words.now x.0 × Known (lent at.now.week) at.now.order.now known.slots) }
    ensures { (length result.slots ≡ 24) × Least (Supers (lent at.now.week)) at.now.week.numbers.n 16 at.now.order.now x.0 result.slots }
{
    let most = known.slot_of(x).0;
    finish(at, tally, Some(x), most).unwrap_or(known)
}

// The first super solution: lot by lot the least slot with which the rest can be finished.
fn first_found(week: &Week<'_>, tally: &mut Tally) -> Option<Order>
    requires { refusal (lent week.now) ≡ 0 }
    ensures { Gives (first_super (lent week.now)) result }
{
    let rules = week.rules();
    let groups = room::groups(&rules);
    let mut words = room::first_words(&rules);
    let mut order = [16u8; 24];
    let start = Partial {
        week: *week,
        order: &order,
        words: &words,
        groups: &groups,
    };
    let x = choose(&start, tally);
    let Ok(mut known) = finish(&start, tally, x, 16) else {
        return None;
    };
    let mut first = Order::empty();
    for d in 0..week.numbers.n as u8 {
        let lot = Lot(d);
        let at = Partial {
            week: *week,
            order: &order,
            words: &words,
            groups: &groups,
        };
        known = least(&at, tally, lot, known);
        let v = known.slot_of(lot);
        words = room::met_words(&rules, &words, lot, v);
        order[usize::from(d)] = v.0;
        first = first.placed(lot, v);
    }
    Some(first)
}

// What a caller may lend the search for its notebook: any numbers will do.
pub trait Notebook {
    // Whether it has a place for how many partial orders are tried, and the number in it, 0 without one.
    ghost counts: { Self → Type 0 };

    ghost tried: { Self → ℕ };

    // The notebook with which the search begins.
    fn tally(&self) -> Tally
        ensures { result.tried ≡ tried self.now };

    // What the search has written goes back.
    fn keep(&mut self, tally: &Tally)
        ensures { counts self.old → tried self.new ≡ tally.now.tried };
}

impl Notebook for Tally {
    ghost counts = { λ _. Unit {0} };

    ghost tried = { λ t. t.tried };

    fn tally(&self) -> Tally {
        *self
    }

    fn keep(&mut self, tally: &Tally) {
        *self = *tally;
    }
}

// A list of numbers, of any length: the weights of the 24 lots, and behind them how many partial orders are tried. A lot without a place begins with
// weight 1, and what it comes to is not written.
impl Notebook for &mut [u32] {
    ghost counts = { λ s. 24 < length s.now };

    ghost tried = { λ s. get_or s.now 24 0 };

    fn tally(&self) -> Tally {
        let mut tally = Tally::new();
        for (weight, number) in tally.weights.iter_mut().zip(self.iter()) {
            *weight = *number;
        }
        tally.tried = self.get(24).copied().unwrap_or(0);
        tally
    }

    fn keep(&mut self, tally: &Tally) {
        for (number, weight) in self.iter_mut().zip(tally.weights.iter()) {
            *number = *weight;
        }
        if 24 < self.len() {
            self[24] = tally.tried;
        }
    }
}

// The first super solution, by a notebook of the caller's. Inner layers share it: they have judged the tables.
pub fn find_super<N: Notebook>(week: &Week<'_>, notes: &mut N) -> Option<Order>
    requires { refusal (lent week.now) ≡ 0 }
    ensures { Gives (first_super (lent week.now)) result }
{
    let mut tally = notes.tally();
    let found = first_found(week, &mut tally);
    notes.keep(&tally);
    found
}
