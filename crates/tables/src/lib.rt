// Which weeks are refused: the numbers, the lengths, the words of each lot and the tie table, judged in that order, refusals 1 to 4.
#![tactic(auto)]

ghost use Rattle.std.specs.Prelude.{◌≡◌, not, cond, bit_and, ℕ, ◌^◌, ◌≤◌, ◌<◌, eqb, ltb};
ghost use Rattle.week.specs.Refusal.{answer, number};
ghost use Rattle.week.specs.Rules.{rules_of};
ghost use Rattle.week.specs.Tables.{lent, refusal, joined, numbers_ok, lengths_ok, lot_ok, lot_ok_at, words_ok, word_ok, may_have, pair_ok, lot_ties_half, ties_ok};

use week::{Lot, Numbers, Refusal, Rules, Slot, Week};

// Refusal 1: whether every number is within its limits; the gap is 0 where the alternative rule is 0. Shared: a file's numbers are judged
// before its tables can be.
#[tactic(auto, unfolding(week::specs::Tables::numbers_ok))]
pub fn numbers_ok(numbers: Numbers) -> bool
    ensures { result ≡ numbers_ok numbers }
{
    (1..=24).contains(&numbers.n)
        && numbers.a <= 2
        && numbers.b <= 3
        && numbers.alternative <= 1
        && numbers.gap <= 15
        && (numbers.alternative != 0 || numbers.gap == 0)
        && numbers.helper <= 1
}

// Refusal 2: whether the tables have the lengths that the week's lots ask.
#[tactic(auto, unfolding(week::specs::Tables::lengths_ok), using(week::proofs::Words::square_small))]
fn lengths_ok(week: &Week<'_>) -> bool
    requires { week.now.numbers.n ≤ 24 }
    ensures { result ≡ lengths_ok week.now.numbers.n week.now.domain.now week.now.loss.now week.now.give.now week.now.ties.now }
{
    let lots = week.numbers.n as usize;
    week.domain.len() == lots
        && week.loss.len() == lots
        && week.give.len() == lots
        && week.ties.len() == lots * lots * 16
}

// Refusal 3, of one lot: its domain is not empty, and holds its loss and give words. Shared: a file's words are judged where they lie.
#[tactic(auto, unfolding(week::specs::Tables::lot_ok))]
pub fn lot_ok(domain: u16, loss: u16, give: u16) -> bool
    ensures { result ≡ lot_ok domain loss give }
{
    domain != 0 && week::within(loss, domain) && week::within(give, domain)
}

// Refusal 3, of a lot's words in the tables.
#[tactic(auto, unfolding(week::specs::Tables::lot_ok_at))]
fn lot_ok_at(week: &Week<'_>, p: Lot) -> bool
    ensures { result ≡ lot_ok_at week.now.domain.now week.now.loss.now week.now.give.now p.0 }
{
    lot_ok(
        week::word_of(week.domain, p),
        week::word_of(week.loss, p),
        week::word_of(week.give, p),
    )
}

// Refusal 3, of every lot.
fn words_ok(week: &Week<'_>) -> bool
    requires { week.now.numbers.n ≤ 24 }
    ensures { result ≡ words_ok week.now.numbers.n week.now.domain.now week.now.loss.now week.now.give.now }
{
    (0..week.numbers.n as u8).all(|p| lot_ok_at(week, Lot(p)))
}

// The slots of lot q that a word for lot p in slot v may have: q's domain, and none where v is not p's or the lots are one.
#[tactic(auto, unfolding(week::specs::Tables::may_have, week::specs::Rules::in_domain))]
fn may_have(rules: &Rules<'_>, p: Lot, q: Lot, v: Slot) -> u16
    ensures { result ≡ may_have rules.now.domain.now p.0 q.0 v.0 }
{
    if p != q && rules.has_slot(p, v) {
        week::word_of(rules.domain, q)
    } else {
        0
    }
}

// The word that has slot v alone; none where v is over 15.
fn word_of_slot(v: Slot) -> u16
    ensures { result ≡ cond (ltb v.0 16) (2 ^ v.0) 0 }
{
    if v.0 < 16 { 1 << v.0 } else { 0 }
}

// Whether two words have a slot in common.
fn meets(word: u16, other: u16) -> bool
    ensures { result ≡ not (eqb (bit_and word other) 0) }
{
    word & other != 0
}

// Refusal 4, of the word for lot p in slot v beside lot q: no bit outside the domains, and each bit agrees with its mirror.
fn word_ok(rules: &Rules<'_>, p: Lot, q: Lot, v: Slot) -> bool
    ensures { result ≡ word_ok (rules_of rules.now) p.0 q.0 v.0 }
{
    let word = rules.tie_word(p, v, q);
    // One word for slot v, and no shift for each slot w: nearly all of a judgement's time goes here.
    let own = word_of_slot(v);
    week::within(word, may_have(rules, p, q, v))
        && (0..16).all(|w| week::bit(word, Slot(w)) == meets(rules.tie_word(q, Slot(w), p), own))
}

// Refusal 4, of the 16 words of lot p beside lot q.
fn pair_ok(rules: &Rules<'_>, p: Lot, q: Lot) -> bool
    ensures { result ≡ pair_ok (rules_of rules.now) p.0 q.0 }
{
    (0..16).all(|v| word_ok(rules, p, q, Slot(v)))
}

// Refusal 4, of lot p beside the lots before it and itself; a pair that is right one way round is right the other way.
fn lot_ties_ok(rules: &Rules<'_>, p: Lot) -> bool
    requires { p.0 < 24 }
    ensures { result ≡ lot_ties_half (rules_of rules.now) p.0 }
{
    (0..p.0 + 1).all(|q| pair_ok(rules, p, Lot(q)))
}

// Refusal 4, of the whole tie table.
fn ties_ok(rules: &Rules<'_>) -> bool
    requires { rules.now.lots ≤ 24 }
    ensures { result ≡ ties_ok (rules_of rules.now) }
{
    (0..rules.lots as u8).all(|p| lot_ties_ok(rules, Lot(p)))
}

// Why a week's numbers and tables are refused: with 1, 2, 3 or 4.
#[tactic(auto, unfolding(week::specs::Tables::admits))]
pub fn judge(week: &Week<'_>) -> Result<(), Refusal>
    ensures { answer result ≡ refusal (lent week.now) }
{
    if !numbers_ok(week.numbers) {
        return Err(Refusal::Numbers);
    }
    if !lengths_ok(week) {
        return Err(Refusal::Lengths);
    }
    if !words_ok(week) {
        return Err(Refusal::Words);
    }
    if !ties_ok(&week.rules()) {
        return Err(Refusal::Ties);
    }
    Ok(())
}

// A judgement that join hands on: whether there is a refusal and which, or only its number.
pub trait Judgement: Copy {
    // The number that it tells, 0 where nothing is wrong.
    ghost told: { Self → ℕ };

    // Whether it tells this refusal.
    fn is(&self, refusal: Refusal) -> bool
        ensures { result ≡ eqb (told self.now) (number refusal) };

    // The judgement that tells this refusal.
    fn refuse(refusal: Refusal) -> Self
        ensures { told result ≡ number refusal };
}

impl Judgement for Result<(), Refusal> {
    ghost told = { answer };

    fn is(&self, refusal: Refusal) -> bool {
        *self == Err(refusal)
    }

    fn refuse(refusal: Refusal) -> Result<(), Refusal> {
        Err(refusal)
    }
}

// Any number is a judgement, also one that no refusal has.
impl Judgement for u32 {
    ghost told = { λ n. n };

    fn is(&self, refusal: Refusal) -> bool {
        *self == refusal.number()
    }

    fn refuse(refusal: Refusal) -> u32 {
        refusal.number()
    }
}

// Why a service refuses, from the judgement of its numbers and tables and from its own tests of kind 1 and of kind 2.
#[tactic(auto, unfolding(week::specs::Tables::joined))]
pub fn join<J: Judgement>(one: bool, two: bool, judged: J) -> J
    ensures { J.told result ≡ joined one two (J.told judged) }
{
    if !one || judged.is(Refusal::Numbers) {
        return J::refuse(Refusal::Numbers);
    }
    if !two {
        return J::refuse(Refusal::Lengths);
    }
    judged
}

#[cfg(test)]
mod tests {
    use super::join;

    // What `join` promises of a number, any number.
    fn join_number(one: bool, two: bool, judged: u32) -> u32
        ensures { result ≡ joined one two judged }
    {
        join(one, two, judged)
    }

    #[test]
    fn joins_any_number(rt: HostRuntime) {
        assert_eq!(rt; join(true, true, 77), 77);
        for (one, two, judged, want) in [
            (true, true, 0, 0),
            (true, true, 77, 77),
            (true, false, 77, 2),
            (true, false, 1, 1),
            (false, true, 77, 1),
        ] {
            assert_eq!(rt; join_number(one, two, judged), want, "of {judged}");
        }
    }
}
