// Whether a partial order may still be finished, as far as its placed lots tell, and if not why. It can not where a group of lots has too little room, where
// a break of the placed lots has no repair, or none that leaves the other lots room. A reason is a part of the order that no super solution extends.
// A slot over 15 means that a lot is not placed. A forward word has the slots that are left to a lot beside the placed ones.
#![tactic(auto)]

ghost use Rattle.std.specs.Prelude.{◌≡◌, true, ℕ, Ok, Err, ◌≤◌, ◌<◌, length, MatchResult};
ghost use Rattle.week.specs.Rules.{rules_of};
ghost use Rattle.week.specs.Tables.{lent};
ghost use Rattle.pairs.specs.Pairs.{pair};
ghost use Rattle.repair.specs.Break.{single};
ghost use Rattle.repair.specs.Found.{lots_of};
ghost use Rattle.parts.specs.Part.{placed};
ghost use Rattle.cuts.specs.Cut.{safe_on, robust_on};
ghost use Rattle.cuts.specs.Reasons.{None, Why, Struck, Judges, Exclusive};
ghost use Rattle.hope.specs.Blame.{Part, Merged, Bound, Blamed, own_group, OwnGroups};
ghost use Rattle.hope.specs.Safe.{Frees, Freed, Paired, risks, SafeSingles, SafePartners, SafePairs, GoingAt, JudgingAt, GroupedAt, RisksAt, DeadAt, WhyAt, VerdictAt, Going};

use mend::LotSet;
use repair::{Case, Lost};
use room::Partial;
use week::{Lot, Numbers, Rules, Slot};

// Why a partial order can not be finished: a part of it that no super solution extends, and the loss that shows it, if one does.
#[derive(Clone, Copy)]
pub struct Dead {
    pub lost: Option<Lost>,
    pub why: [u8; 24],
}

// A loss of placed lots that has no repair, and the lots that the search for one met.
#[derive(Clone, Copy)]
struct Unmended {
    lost: Lost,
    met: LotSet,
}

// No lot of a week: a merge that leaves out this one leaves out none.
const NO_LOT: Lot = Lot(24);

// To the lots that a part of an order places, those but x of another part.
pub fn merge(part: &mut [u8; 24], more: &[u8; 24], x: Lot)
    ensures { Merged part.old more.now x.0 part.new }
{
    for (p, slot) in more.iter().enumerate() {
        if 16 <= part[p] && p != usize::from(x.0) {
            part[p] = *slot;
        }
    }
}

// A part of an order beside which lot q has no slots but those of `target`, where it has none beside the whole: in turn each lot that takes another from q.
pub fn blamed(rules: &Rules<'_>, order: &[u8], q: Lot, target: u16) -> [u8; 24]
    requires { Bound (rules_of rules.now) order.now q.0 target }
    ensures { Blamed (rules_of rules.now) order.now q.0 target result }
{
    let mut part = [16u8; 24];
    let own = week::word_of(rules.domain, q);
    let mut rest = own & !target;
    for p in 0..rules.lots as u8 {
        if rest == 0 {
            return part;
        }
        let x = Lot(p);
        let v = week::slot_in(order, x);
        if 16 <= v.0 || x == q {
            continue;
        }
        let tie = rules.tie_word(x, v, q);
        if week::within(rest, tie) {
            continue;
        }
        part[usize::from(p)] = v.0;
        rest &= tie;
    }
    part
}

// The slots to which a lost lot may go from slot w.
fn free_word(numbers: Numbers, w: Slot) -> u16
    ensures { Frees numbers w.0 result }
{
    let at = w.0;
    if 16 <= at {
        return 0;
    }
    if numbers.alternative == 1 {
        if 15 <= u64::from(at) + u64::from(numbers.gap) {
            return 0;
        }
        return 65535u16 << (u32::from(at) + numbers.gap + 1);
    }
    if numbers.helper == 1 {
        return 65534u16 << at;
    }
    !(1u16 << at)
}

// Of each lot, the slots that are left to it beside the placed lots and to which it may go if it is lost.
fn free_words(at: &Partial<'_>) -> [u16; 24]
    requires { at.now.week.numbers.n ≤ 24 }
    ensures { Freed at.now.week.numbers at.now.order.now at.now.words.now at.now.week.numbers.n result }
{
    let numbers = at.week.numbers;
    let mut free = [0u16; 24];
    for p in 0..numbers.n as u8 {
        let x = Lot(p);
        free[usize::from(p)] = week::word_of(at.words, x)
            & free_word(numbers, week::slot_in(at.order, x));
    }
    free
}

// Whether lot x has a slot of one word, and lot y one of another, that may stand together.
fn has_pair(rules: &Rules<'_>, x: Lot, first: u16, y: Lot, last: u16) -> bool
    ensures { result ≡ true → Paired rules.now.lots rules.now.ties.now x.0 first y.0 last }
{
    (0..16).any(|v| week::bit(first, Slot(v)) && rules.tie_word(x, Slot(v), y) & last != 0)
}

// Whether a lot stands in a slot of its loss word.
#[tactic(auto, unfolding(crate::specs::Safe::risks))]
fn at_risk(at: &Partial<'_>, p: Lot) -> bool
    ensures { result ≡ risks at.now.week.loss.now at.now.order.now p.0 }
{
    week::bit(week::word_of(at.week.loss, p), week::slot_in(at.order, p))
}

// Judges each lot at risk, from lot `from` on, up to the first that fails.
fn each_at_risk<F: Fn(Lot) -> Result<(), Unmended>>(
    at: &Partial<'_>,
    from: u8,
    judge: F,
) -> Result<(), Unmended>
    requires going { GoingAt at.now }
    requires asks { (p : ℕ) → from ≤ p → RisksAt at.now p → F.pre judge (record { 0 = p }) }
    ensures { MatchResult result (λ _. (p : ℕ) → from ≤ p → RisksAt at.now p → F.post judge (record { 0 = p }) (Ok tt)) (λ e. (p : ℕ) × F.post judge (record { 0 = p }) (Err e)) }
{
    for p in from..at.week.numbers.n as u8 {
        if at_risk(at, Lot(p)) {
            judge(Lot(p))?;
        }
    }
    Ok(())
}

// Whether a loss that breaks the placed lots has a repair.
fn mended(at: &Partial<'_>, lost: Lost) -> Result<(), Unmended>
    requires { Struck (lent at.now.week) at.now.order.now (lots_of lost) }
    ensures { VerdictAt at.now (Judges (lent at.now.week) at.now.order.now (lots_of lost) true) result }
{
    let case = Case {
        week: at.week,
        order: at.order,
        lost,
    };
    mend::has_repair(&case).map_err(|met| Unmended { lost, met })
}

// Whether the loss of one lot at risk has a repair: a free slot is one at once.
fn single_safe(at: &Partial<'_>, free: &[u16; 24], x: Lot) -> Result<(), Unmended>
    requires { JudgingAt at.now free.now × (1 ≤ at.now.week.numbers.a) × RisksAt at.now x.0 }
    ensures { VerdictAt at.now (safe_on (lent at.now.week) (placed 16 at.now.order.now) at.now.order.now (single x.0) ≡ true) result }
{
    if week::word_of(free, x) != 0 {
        return Ok(());
    }
    mended(at, Lost(x, x))
}

// Whether each loss of one placed lot has a repair.
fn singles_safe(at: &Partial<'_>, free: &[u16; 24]) -> Result<(), Unmended>
    requires { JudgingAt at.now free.now × (1 ≤ at.now.week.numbers.a) }
    ensures { VerdictAt at.now (SafeSingles (lent at.now.week) at.now.order.now) result }
{
    each_at_risk(at, 0, |x| single_safe(at, free, x))
}

// Whether the loss of two lots at risk has a repair: two free slots that may stand together are one at once.
fn pair_safe(at: &Partial<'_>, free: &[u16; 24], x: Lot, y: Lot) -> Result<(), Unmended>
    requires { JudgingAt at.now free.now × (2 ≤ at.now.week.numbers.a) × RisksAt at.now x.0 × RisksAt at.now y.0 × (x.0 < y.0) }
    ensures { VerdictAt at.now (safe_on (lent at.now.week) (placed 16 at.now.order.now) at.now.order.now (pair x.0 y.0) ≡ true) result }
{
    let rules = at.week.rules();
    if has_pair(&rules, x, week::word_of(free, x), y, week::word_of(free, y)) {
        return Ok(());
    }
    mended(at, Lost(x, y))
}

// Whether each loss of lot x, which is at risk, with a placed lot behind it has a repair.
fn partners_safe(at: &Partial<'_>, free: &[u16; 24], x: Lot) -> Result<(), Unmended>
    requires { JudgingAt at.now free.now × (2 ≤ at.now.week.numbers.a) × RisksAt at.now x.0 }
    ensures { VerdictAt at.now (SafePartners (lent at.now.week) at.now.order.now x.0) result }
{
    each_at_risk(at, x.0 + 1, |y| pair_safe(at, free, x, y))
}

// Whether each loss of two placed lots has a repair.
fn pairs_safe(at: &Partial<'_>, free: &[u16; 24]) -> Result<(), Unmended>
    requires { JudgingAt at.now free.now × (2 ≤ at.now.week.numbers.a) }
    ensures { VerdictAt at.now (SafePairs (lent at.now.week) at.now.order.now) result }
{
    each_at_risk(at, 0, |x| partners_safe(at, free, x))
}

// Whether each break of the placed lots has a repair among them; where one has none, no super solution places them so.
fn all_safe(at: &Partial<'_>) -> Result<(), Unmended>
    requires { GoingAt at.now }
    ensures { VerdictAt at.now (robust_on (lent at.now.week) (placed 16 at.now.order.now) at.now.order.now ≡ true) result }
{
    let numbers = at.week.numbers;
    if numbers.a < 1 {
        return Ok(());
    }
    let free = free_words(at);
    singles_safe(at, &free)?;
    if numbers.a < 2 {
        return Ok(());
    }
    pairs_safe(at, &free)
}

// The lots of an order that are lost or that the search for a repair met.
fn narrowed(order: &[u8], found: Unmended) -> [u8; 24]
    requires { length order.now ≡ 24 }
    ensures { Part 24 order.now result }
{
    let mut part = [16u8; 24];
    for (p, slot) in order.iter().enumerate() {
        if found.met.has(Lot(p as u8)) || found.lost.has(Lot(p as u8)) {
            part[p] = *slot;
        }
    }
    part
}

// An order by value: it has a place for each of 24 lots.
fn whole(order: &[u8]) -> [u8; 24]
    requires { length order.now ≡ 24 }
    ensures { result ≡ order.now }
{
    let mut places = [0u8; 24];
    places.copy_from_slice(order);
    places
}

// Why an order with a break that has no repair can not be finished: the lots that the search for a repair met, if they alone have none; else the order.
fn why_unsafe(at: &Partial<'_>, found: Unmended) -> Dead
    requires { (length at.now.order.now ≡ 24) × DeadAt at.now found.lost }
    ensures { WhyAt at.now result.why }
{
    let part = narrowed(at.order, found);
    let case = Case {
        week: at.week,
        order: &part,
        lost: found.lost,
    };
    let dead = robust::is_break(&case) && mend::has_repair(&case).is_err();
    Dead {
        lost: Some(found.lost),
        why: if dead { part } else { whole(at.order) },
    }
}

// The lots that take slots from groups that have none to spare, a first guess at why these have too little room: any part of the order is right.
fn pressed(at: &Partial<'_>) -> [u8; 24]
    requires { GoingAt at.now }
    ensures { Part at.now.week.numbers.n at.now.order.now result }
{
    let rules = at.week.rules();
    let rooms = at.rooms();
    let mut part = [16u8; 24];
    for p in 0..at.week.numbers.n as u8 {
        let q = Lot(p);
        let g = usize::from(room::group_of(at.groups, q).0);
        if room::is_placed(at.order, q) || 24 <= g {
            continue;
        }
        let room = rooms[g];
        if room.is_full() {
            let target = room.slots | week::word_of(at.words, q);
            merge(&mut part, &blamed(&rules, at.order, q, target), NO_LOT);
        }
    }
    part
}

// The group of a lot that waits; a placed lot has a number of its own, which is no group's.
#[tactic(auto, unfolding(crate::specs::Blame::own_group))]
fn own_group(at: &Partial<'_>, p: Lot) -> u8
    requires { p.0 < 24 }
    ensures { result ≡ own_group at.now.order.now at.now.groups.now p.0 }
{
    let g = room::group_of(at.groups, p).0;
    if room::is_placed(at.order, p) || 24 <= g {
        return 24 + p.0;
    }
    g
}

// The groups of the lots that wait beside an order: where fewer lots are placed, room is still asked of these alone.
fn own_groups(at: &Partial<'_>) -> [u8; 24]
    requires { at.now.week.numbers.n ≤ 24 }
    ensures { OwnGroups at.now.order.now at.now.groups.now at.now.week.numbers.n result }
{
    let mut own = [0u8; 24];
    for p in 0..at.week.numbers.n as u8 {
        own[usize::from(p)] = own_group(at, Lot(p));
    }
    own
}

// Why an order in which a group has too little room can not be finished: the lots that take its slots, if they alone leave too little; else the order.
fn why_crowded(at: &Partial<'_>) -> Dead
    requires { GoingAt at.now × (GroupedAt at.now × None (lent at.now.week) at.now.order.now) }
    ensures { WhyAt at.now result.why }
{
    let part = pressed(at);
    let rules = at.week.rules();
    let words = room::words_of(&rules, &part);
    let groups = own_groups(at);
    let alone = Partial {
        week: at.week,
        order: &part,
        words: &words,
        groups: &groups,
    };
    let why = if alone.slack() == 0 {
        part
    } else {
        whole(at.order)
    };
    Dead { lost: None, why }
}

// Whether the loss of one lot at risk has a repair that leaves the other lots room.
fn single_roomy(at: &Partial<'_>, x: Lot) -> Result<(), Unmended>
    requires { GoingAt at.now × GroupedAt at.now × (1 ≤ at.now.week.numbers.a) × RisksAt at.now x.0 }
    ensures { VerdictAt at.now (Unit {0}) result }
{
    let lost = Lost(x, x);
    mend::has_roomy_repair(at, lost).map_err(|met| Unmended { lost, met })
}

// Whether each loss of one placed lot has a repair that leaves the other lots room.
fn singles_roomy(at: &Partial<'_>) -> Result<(), Unmended>
    requires { GoingAt at.now × (GroupedAt at.now × (1 ≤ at.now.week.numbers.a)) }
    ensures { VerdictAt at.now (Unit {0}) result }
{
    each_at_risk(at, 0, |x| single_roomy(at, x))
}

// Why an order with a break that has no repair with room can not be finished: the lots that the search for one met and those that take the full groups'
// slots, if they alone have none; else the order.
fn why_cramped(at: &Partial<'_>, found: Unmended) -> Dead
    requires { GoingAt at.now × (GroupedAt at.now × DeadAt at.now found.lost) }
    ensures { WhyAt at.now result.why }
{
    let mut part = narrowed(at.order, found);
    merge(&mut part, &pressed(at), NO_LOT);
    let case = Case {
        week: at.week,
        order: &part,
        lost: found.lost,
    };
    let lost = Some(found.lost);
    if !robust::is_break(&case) {
        return Dead {
            lost,
            why: whole(at.order),
        };
    }
    let rules = at.week.rules();
    let words = room::words_of(&rules, &part);
    let groups = own_groups(at);
    let alone = Partial {
        week: at.week,
        order: &part,
        words: &words,
        groups: &groups,
    };
    let dead = mend::has_roomy_repair(&alone, found.lost).is_err();
    Dead {
        lost,
        why: if dead { part } else { whole(at.order) },
    }
}

// Whether a partial order may still be finished, as far as its placed lots tell. Room is asked of repairs only where some group has no slot to spare: it
// costs much and tells little elsewhere.
pub fn judge(at: &Partial<'_>) -> Result<(), Dead>
    requires { (Going (lent at.now.week) at.now.order.now at.now.words.now) × Exclusive (lent at.now.week) at.now.groups.now }
    ensures { MatchResult result (λ _. robust_on (lent at.now.week) (placed 16 at.now.order.now) at.now.order.now ≡ true) (λ dead. (length dead.why ≡ 24) × Why (lent at.now.week) at.now.order.now dead.why) }
{
    let spare = at.slack();
    if spare == 0 {
        return Err(why_crowded(at));
    }
    if let Err(found) = all_safe(at) {
        return Err(why_unsafe(at, found));
    }
    if 1 < spare || at.week.numbers.a < 1 {
        return Ok(());
    }
    if let Err(found) = singles_roomy(at) {
        return Err(why_cramped(at, found));
    }
    Ok(())
}
