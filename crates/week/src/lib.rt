// A week of the range: its lots and slots, its numbers and tables, and what may stand together.
#![tactic(auto)]

ghost use Rattle.std.specs.Prelude.{◌≡◌, ◌≤◌, length, get_or, set, replicate};
ghost use Rattle.week.specs.Refusal.{number};
ghost use Rattle.week.specs.Rules.{together, bit_of, inside, tie_word, rules_of, in_domain, free, tied, beside, fits, lot_fits, keeps_half};
ghost use Rattle.week.specs.Tables.{lent, pair_rules};

use std::fmt;

// A lot's number. Never a slot's.
#[derive(Clone, Copy, Debug, PartialEq, Eq, PartialOrd, Ord)]
pub struct Lot(pub u8);

// A slot's number: where a lot may stand. Never a lot's.
#[derive(Clone, Copy, Debug, PartialEq, Eq, PartialOrd, Ord)]
pub struct Slot(pub u8);

// The six numbers of a week, wide enough to ask whether each is within its limits.
#[repr(C)]
#[derive(Clone, Copy, Debug, PartialEq, Eq)]
pub struct Numbers {
    pub n: u32,
    pub a: u32,
    pub b: u32,
    pub alternative: u32,
    pub gap: u32,
    pub helper: u32,
}

// The slots of up to 24 lots, by value.
#[derive(Clone, Copy, Debug, PartialEq, Eq)]
pub struct Order {
    pub slots: [u8; 24],
}

impl Order {
    // Every lot in slot 0.
    pub fn empty() -> Order
        ensures { result.slots ≡ replicate 24 0 }
    {
        Order { slots: [0; 24] }
    }

    // The order with one lot placed; a lot over 23 has no place, and changes nothing.
    pub fn placed(self, lot: Lot, slot: Slot) -> Order
        ensures { result.slots ≡ set self.slots lot.0 slot.0 }
    {
        let mut slots = self.slots;
        let at = usize::from(lot.0);
        // `get_mut` was tried, and the proof did not close.
        if at < slots.len() {
            slots[at] = slot.0;
        }
        Order { slots }
    }

    // Where a lot stands; 0 for a lot over 23.
    pub fn slot_of(self, lot: Lot) -> Slot
        ensures { result.0 ≡ get_or self.slots lot.0 0 }
    {
        slot_in(&self.slots, lot)
    }
}

// Whether a slot is in a word; a slot over 15 is in none.
#[tactic(auto, unfolding(crate::specs::Rules::bit_of))]
pub fn bit(word: u16, slot: Slot) -> bool
    ensures { result ≡ bit_of word slot.0 }
{
    slot.0 < 16 && (word >> slot.0) % 2 == 1
}

// Whether every slot of one word is in another.
pub fn within(part: u16, whole: u16) -> bool
    ensures { result ≡ inside part whole }
{
    part & whole == part
}

// A lot's word in a word table; 0 beyond the table's end.
pub fn word_of(words: &[u16], lot: Lot) -> u16
    ensures { result ≡ get_or words.now lot.0 0 }
{
    words.get(usize::from(lot.0)).copied().unwrap_or(0)
}

// A lot's slot in an order; 0 beyond the order's end.
pub fn slot_in(order: &[u8], lot: Lot) -> Slot
    ensures { result.0 ≡ get_or order.now lot.0 0 }
{
    Slot(order.get(usize::from(lot.0)).copied().unwrap_or(0))
}

// The pair rules of a week: how many lots it has, which slots each may take, and which two placed lots may stand together.
#[derive(Clone, Copy, Debug)]
pub struct Rules<'a> {
    pub lots: u32,
    pub domain: &'a [u16],
    pub ties: &'a [u16],
}

impl Rules<'_> {
    // The word of the tie table for lot p in slot v beside lot q; 0 beyond the table's end.
    #[tactic(auto, unfolding(crate::specs::Rules::tie_word))]
    pub fn tie_word(&self, p: Lot, v: Slot, q: Lot) -> u16
        ensures { result ≡ tie_word self.now.lots self.now.ties.now p.0 v.0 q.0 }
    {
        let at = (usize::from(p.0) * self.lots as usize + usize::from(q.0)) * 16 + usize::from(v.0);
        self.ties.get(at).copied().unwrap_or(0)
    }

    // Whether lot p in slot v and lot q in slot w may stand together.
    #[tactic(auto, unfolding(crate::specs::Rules::together))]
    pub fn may_stand(&self, p: Lot, v: Slot, q: Lot, w: Slot) -> bool
        ensures { result ≡ together (rules_of self.now) p.0 v.0 q.0 w.0 }
    {
        bit(self.tie_word(p, v, q), w)
    }

    // Whether slot v is in the domain of lot p.
    #[tactic(auto, unfolding(crate::specs::Rules::in_domain))]
    pub fn has_slot(&self, p: Lot, v: Slot) -> bool
        ensures { result ≡ in_domain (rules_of self.now) p.0 v.0 }
    {
        bit(word_of(self.domain, p), v)
    }

    // Whether lot p in slot v may stand together with lot q in every slot of q's domain; so it is where v is not p's.
    #[tactic(auto, using(crate::proofs::Standing::free_out))]
    fn stands_free(&self, p: Lot, q: Lot, v: Slot) -> bool
        ensures { result ≡ free (rules_of self.now) p.0 q.0 v.0 }
    {
        !self.has_slot(p, v) || within(word_of(self.domain, q), self.tie_word(p, v, q))
    }

    // Whether two different lots have slots in their domains that may not stand together.
    pub fn is_tied(&self, p: Lot, q: Lot) -> bool
        ensures { result ≡ tied (rules_of self.now) p.0 q.0 }
    {
        p != q && !(0..16).all(|v| self.stands_free(p, q, Slot(v)))
    }

    // Whether lot p in slot v may stand together with lot q where the order has it.
    #[tactic(auto, unfolding(crate::specs::Rules::beside))]
    fn stands_beside(&self, order: &[u8], p: Lot, v: Slot, q: Lot) -> bool
        ensures { result ≡ beside (rules_of self.now) order.now p.0 v.0 q.0 }
    {
        self.may_stand(p, v, q, slot_in(order, q))
    }

    // Whether lot p may take slot v: it is in the domain, and stands beside every lot before p where the order has it.
    pub fn fits_at(&self, order: &[u8], p: Lot, v: Slot) -> bool
        ensures { result ≡ fits (rules_of self.now) order.now p.0 v.0 }
    {
        self.has_slot(p, v) && (0..p.0).all(|q| self.stands_beside(order, p, v, Lot(q)))
    }

    // Whether a lot stands well where the order has it, beside every lot before it.
    #[tactic(auto, unfolding(crate::specs::Rules::lot_fits))]
    fn lot_fits(&self, order: &[u8], p: Lot) -> bool
        ensures { result ≡ lot_fits (rules_of self.now) order.now p.0 }
    {
        self.fits_at(order, p, slot_in(order, p))
    }

    // Whether an order of at most 24 lots keeps the rules, each pair looked at once. Inner layers share it: they ask the length first.
    pub fn keeps(&self, order: &[u8]) -> bool
        requires { length order.now ≤ 24 }
        ensures { result ≡ keeps_half (rules_of self.now) order.now }
    {
        (0..order.len() as u8).all(|p| self.lot_fits(order, Lot(p)))
    }
}

// A week as its planner lends it: the six numbers and the four tables, as they are, right or wrong.
#[derive(Clone, Copy, Debug)]
pub struct Week<'a> {
    pub numbers: Numbers,
    pub domain: &'a [u16],
    pub loss: &'a [u16],
    pub give: &'a [u16],
    pub ties: &'a [u16],
}

impl<'a> Week<'a> {
    // The pair rules of the week.
    pub fn rules(&self) -> Rules<'a>
        ensures same { rules_of result ≡ pair_rules (lent self.now) }
        ensures lots { result.lots ≡ self.now.numbers.n }
        ensures domain { result.domain.now ≡ self.now.domain.now }
        ensures ties { result.ties.now ≡ self.now.ties.now }
    {
        Rules {
            lots: self.numbers.n,
            domain: self.domain,
            ties: self.ties,
        }
    }
}

// Why a service refuses: the first of its checks that fails.
#[derive(Clone, Copy, Debug, PartialEq, Eq)]
pub enum Refusal {
    // The numbers are outside their limits, or the lost lots are no set of the week.
    Numbers = 1,
    // A table or a buffer has another length than the week asks.
    Lengths = 2,
    // A lot's domain is empty, or its loss or give word is not within it.
    Words = 3,
    // The tie table has a slot outside the domains, or is not symmetric.
    Ties = 4,
    // There is no super solution.
    NoSolution = 5,
    // The order breaks the pair rules.
    Order = 6,
    // A row of the repair table is wrong.
    Row = 7,
    // The order has no repair.
    NoRepair = 8,
    // The sheet is not one of this week.
    Sheet = 9,
    // The copy number is above the save number.
    Copy = 10,
    // The moves are not well formed.
    Moves = 11,
    // A moved lot, or one tied to it, was moved since the copy.
    Stale = 12,
    // A move leads nowhere, or the order with the moves breaks the rules.
    Result = 13,
    // The sheet holds as many saves as it can count.
    Full = 14,
    // The file is not as many whole blocks as its week asks.
    Size = 15,
    // A block's check is wrong.
    Check = 16,
    // A block's number is wrong.
    Block = 17,
    // The rest of the last block is not 0.
    Filling = 18,
}

impl Refusal {
    // The number by which C, the files and the planner know it.
    pub fn number(self) -> u32
        ensures { result ≡ number self }
    {
        self as u32
    }
}

impl fmt::Display for Refusal {
    // What is wrong, in one sentence.
    fn fmt<W: fmt::Write>(&self, f: &mut fmt::Formatter<W>) -> fmt::Result {
        f.write_str(match self {
            Refusal::Numbers => {
                "the numbers are outside their limits, or the lost lots are no set of the week"
            }
            Refusal::Lengths => "a table or a buffer has another length than the week asks",
            Refusal::Words => "a lot's domain is empty, or its loss or give word is not within it",
            Refusal::Ties => "the tie table has a slot outside the domains, or is not symmetric",
            Refusal::NoSolution => "there is no super solution",
            Refusal::Order => "the order breaks the pair rules",
            Refusal::Row => "a row of the repair table is wrong",
            Refusal::NoRepair => "the order has no repair",
            Refusal::Sheet => "the sheet is not one of this week",
            Refusal::Copy => "the copy number is above the save number",
            Refusal::Moves => "the moves are not well formed",
            Refusal::Stale => "a moved lot, or one tied to it, was moved since the copy",
            Refusal::Result => "a move leads nowhere, or the order with the moves breaks the rules",
            Refusal::Full => "the sheet holds as many saves as it can count",
            Refusal::Size => "the file is not as many whole blocks as its week asks",
            Refusal::Check => "a block's check is wrong",
            Refusal::Block => "a block's number is wrong",
            Refusal::Filling => "the rest of the last block is not 0",
        })
    }
}
