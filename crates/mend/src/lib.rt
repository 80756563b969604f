// Whether the placed lots of a partial order have a repair for a loss. The lots that have to move are kept as a set and decided one after the other; a lot is
// decided once its new slot is fixed. A slot over 15 means that a lot is not placed, or not decided.
#![tactic(auto)]

ghost use Rattle.std.specs.Prelude.{◌≡◌, true, false, cond, is_ok, IfSome, bit_and, bit_or, ◌-◌, ◌^◌, ◌≤◌, ◌<◌, eqb};
ghost use Rattle.std.specs.Int.Count.{ones};
ghost use Rattle.week.specs.Tables.{lent};
ghost use Rattle.repair.specs.Found.{lots_of};
ghost use Rattle.repair.specs.Repair.{is_lost};
ghost use Rattle.cuts.specs.Reasons.{Struck, Judges};
ghost use Rattle.mend.specs.Sets.{has, SetOf, minus};
ghost use Rattle.mend.specs.Mend.{driven, stuck, Opens, Roomed, Tells, MovingBy, RoomedBy};

use repair::{Case, Lost};
use room::Partial;
use std::ops::{BitAnd, BitOr, BitOrAssign};
use week::{Lot, Rules, Slot};

// A set of lots: bit p says whether lot p is in it.
#[derive(Clone, Copy, Debug, PartialEq, Eq)]
pub struct LotSet(pub u32);

impl LotSet {
    // The set of one lot.
    fn only(p: Lot) -> LotSet
        requires { p.0 < 24 }
        ensures { result.0 ≡ 2 ^ p.0 }
    {
        LotSet(1 << p.0)
    }

    // Whether a lot is in the set.
    pub fn has(self, p: Lot) -> bool
        ensures { result ≡ has self.0 p.0 }
    {
        p.0 < 32 && (self.0 >> p.0) % 2 == 1
    }

    // Whether no lot is in the set.
    fn is_empty(self) -> bool
        ensures { result ≡ eqb self.0 0 }
    {
        self.0 == 0
    }

    // How many lots the set has.
    fn len(self) -> u32
        ensures { result ≡ ones self.0 }
    {
        self.0.count_ones()
    }

    // The lowest lot of a set that has one.
    #[tactic(auto, using(crate::proofs::Sets::lowest_has))]
    fn lowest(self) -> Lot
        requires { 0 < self.0 }
        ensures { has self.0 result.0 ≡ true }
    {
        Lot(self.0.trailing_zeros() as u8)
    }

    // The lots of the set that are not in another.
    #[tactic(auto, unfolding(crate::specs::Sets::minus))]
    fn without(self, out: LotSet) -> LotSet
        ensures { result.0 ≡ minus self.0 out.0 }
    {
        LotSet(self.0 ^ (self.0 & out.0))
    }
}

impl BitAnd for LotSet {
    type Output = LotSet;

    ghost bitand_gives = { λ a b r. r.0 ≡ bit_and a.0 b.0 };

    // The lots that are in both sets.
    fn bitand(self, rhs: LotSet) -> LotSet {
        LotSet(self.0 & rhs.0)
    }
}

impl BitOr for LotSet {
    type Output = LotSet;

    ghost bitor_gives = { λ a b r. r.0 ≡ bit_or a.0 b.0 };

    // The lots that are in one set or the other.
    fn bitor(self, rhs: LotSet) -> LotSet {
        LotSet(self.0 | rhs.0)
    }
}

impl BitOrAssign for LotSet {
    ghost bitor_assign_gives = { λ a b r. r.0 ≡ bit_or a.0 b.0 };

    // Puts the lots of another set in.
    fn bitor_assign(&mut self, rhs: LotSet) {
        *self = *self | rhs;
    }
}

// The set of the first n lots that pass a test.
fn set_of<F: Fn(Lot) -> bool>(n: u32, test: F) -> LotSet
    requires few { n ≤ 24 }
    requires asks { F.IsAlwaysCallable test }
    ensures low { result.0 < 2 ^ n }
    ensures each { (p : Lot) → p.0 < n → F.post test p (has result.0 p.0) }
{
    let mut set = LotSet(0);
    for p in 0..n as u8 {
        if test(Lot(p)) {
            set |= LotSet::only(Lot(p));
        }
    }
    set
}

// What is decided of a repair: the new slots of the decided lots, and the sets of the lots that are lost, that may not leave and that have to move;
// `left` more lots may move.
#[derive(Clone, Copy)]
struct Moves {
    slots: [u8; 24],
    gone: LotSet,
    held: LotSet,
    forced: LotSet,
    left: u32,
}

// The lot to decide next, one that has to move: a lost one first. Any choice is right: this one makes the search short.
#[tactic(auto, using(crate::proofs::Sets::part_has))]
fn next_lot(gone: LotSet, forced: LotSet) -> Lot
    requires { 0 < forced.0 }
    ensures { has forced.0 result.0 ≡ true }
{
    let first = forced & gone;
    if first.is_empty() {
        return forced.lowest();
    }
    first.lowest()
}

// How many more lots may move once lot x does, where `left` may before: a lost lot is not counted.
fn left_after(lost: Lost, x: Lot, left: u32) -> u32
    requires { is_lost (lots_of lost) x.0 ≡ false → 0 < left }
    ensures { result ≡ cond (is_lost (lots_of lost) x.0) left (left - 1) }
{
    if lost.has(x) {
        return left;
    }
    left - 1
}

// Whether a lot is placed and not decided, and clashes where it stands with lot x in slot v.
#[tactic(auto, unfolding(crate::specs::Mend::driven, week::specs::Rules::together))]
fn is_driven(rules: &Rules<'_>, order: &[u8], slots: &[u8], x: Lot, v: Slot, p: Lot) -> bool
    ensures { result ≡ driven rules.now.lots rules.now.ties.now order.now slots.now x.0 v.0 p.0 }
{
    let w = week::slot_in(order, p);
    w.0 < 16 && 16 <= week::slot_in(slots, p).0 && !rules.may_stand(x, v, p, w)
}

// The placed lots, not yet decided, that clash with lot x in slot v. Most of the search's time goes here: the rules and the order are
// looked up once, and not for each lot.
fn driven_set(case: &Case<'_>, slots: &[u8], x: Lot, v: Slot) -> LotSet
    requires { case.now.week.numbers.n ≤ 24 }
    ensures { SetOf case.now.week.numbers.n (driven case.now.week.numbers.n case.now.week.ties.now case.now.order.now slots.now x.0 v.0) result.0 }
{
    let rules = case.week.rules();
    let order = case.order;
    set_of(rules.lots, |p| is_driven(&rules, order, slots, x, v, p))
}

// Whether a lot is placed and may not leave: its slot is not in its give word.
#[tactic(auto, unfolding(crate::specs::Mend::stuck))]
fn is_stuck(case: &Case<'_>, p: Lot) -> bool
    ensures { result ≡ stuck case.now.week.give.now case.now.order.now p.0 }
{
    let w = week::slot_in(case.order, p);
    w.0 < 16 && !week::bit(week::word_of(case.week.give, p), w)
}

// The slots of lot x's domain in which it clashes with no decided lot.
fn open_word(case: &Case<'_>, slots: &[u8], x: Lot) -> u16
    requires { case.now.week.numbers.n ≤ 24 }
    ensures { Opens case.now.week.numbers.n case.now.week.domain.now case.now.week.ties.now slots.now x.0 case.now.week.numbers.n result }
{
    let rules = case.week.rules();
    let mut own = week::word_of(rules.domain, x);
    for q in 0..rules.lots as u8 {
        let w = week::slot_in(slots, Lot(q));
        if w.0 < 16 {
            own &= rules.tie_word(Lot(q), w, x);
        }
    }
    own
}

// Whether the placed lots have a repair for the lost ones, with these moves, that leaves the other lots room where `at` asks for it: the lots that have to
// move are decided one after the other.
fn mends(case: &Case<'_>, at: Option<&Partial<'_>>, moves: &Moves) -> Result<(), LotSet>
    requires moving { MovingBy case.now moves.now }
    requires room { IfSome at (λ p. RoomedBy case.now p.now) }
    ensures { Tells (lent case.now.week) case.now.order.now (lots_of case.now.lost) moves.now.slots (is_ok result) }
{
    let others = moves.forced.without(moves.gone);
    let stopped = others & moves.held;
    if !stopped.is_empty() {
        return Err(stopped);
    }
    if moves.left < others.len() {
        return Err(moves.forced);
    }
    if moves.forced.is_empty() {
        return match at {
            Some(at) if !at.has_room(&moves.slots, moves.left) => Err(LotSet(0)),
            _ => Ok(()),
        };
    }
    let x = next_lot(moves.gone, moves.forced);
    let own = open_word(case, &moves.slots, x);
    let left = left_after(case.lost, x, moves.left);
    let here = LotSet::only(x);
    let rest = moves.forced.without(here);
    let mut met = here;
    for v in 0..16 {
        let to = Slot(v);
        if !week::bit(own, to) || !case.may_go(x, to) {
            continue;
        }
        // The slots are set in their place: a second copy of them at each try costs a twentieth of the time.
        let mut next = Moves { left, ..*moves };
        next.slots[usize::from(x.0)] = v;
        let driven = driven_set(case, &next.slots, x, to);
        next.forced = rest | driven;
        let Err(more) = mends(case, at, &next) else {
            return Ok(());
        };
        met |= more;
    }
    Err(met)
}

// Whether the placed lots have a repair for a loss that breaks them, one that leaves the other lots room where `at` asks for it.
fn repair_by(case: &Case<'_>, at: Option<&Partial<'_>>) -> Result<(), LotSet>
    requires struck { Struck (lent case.now.week) case.now.order.now (lots_of case.now.lost) }
    requires room { IfSome at (λ p. RoomedBy case.now p.now) }
    ensures { Judges (lent case.now.week) case.now.order.now (lots_of case.now.lost) (is_ok result) }
{
    let gone = LotSet::only(case.lost.0) | LotSet::only(case.lost.1);
    let start = Moves {
        slots: [16; 24],
        gone,
        held: set_of(case.week.numbers.n, |p| is_stuck(case, p)),
        forced: gone,
        left: case.week.numbers.b,
    };
    mends(case, at, &start)
}

// Whether the placed lots have a repair for a loss that breaks them; if not, no super solution extends the order, and the lots that the search for a
// repair met are a hint why: any set is right. Room is not asked.
pub fn has_repair(case: &Case<'_>) -> Result<(), LotSet>
    requires { Struck (lent case.now.week) case.now.order.now (lots_of case.now.lost) }
    ensures { Judges (lent case.now.week) case.now.order.now (lots_of case.now.lost) (is_ok result) }
{
    repair_by(case, None)
}

// The same, of repairs that leave the other lots room.
pub fn has_roomy_repair(at: &Partial<'_>, lost: Lost) -> Result<(), LotSet>
    requires { Struck (lent at.now.week) at.now.order.now (lots_of lost) × Roomed (lent at.now.week) at.now.order.now at.now.words.now at.now.groups.now }
    ensures { Judges (lent at.now.week) at.now.order.now (lots_of lost) (is_ok result) }
{
    let case = Case {
        week: at.week,
        order: at.order,
        lost,
    };
    repair_by(&case, Some(at))
}
