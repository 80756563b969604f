// Room: lots that may never stand in one slot, a group, need as many slots as they are. A partial order in which the lots of a group that are not placed
// have fewer slots left, together, is dead; and so is a partial repair, where they have fewer beside the moved lots than those that may not move.
// A slot over 15 means that a lot is not placed, or its move not decided. A forward word has the slots that are left to a lot beside the placed ones.
#![tactic(auto)]

ghost use Rattle.std.specs.Prelude.{◌≡◌, ℕ, ◌≤◌, leb, get_or};
ghost use Rattle.lex.specs.Scan.{scan_from};
ghost use Rattle.parts.specs.Part.{placed};
ghost use Rattle.room.specs.Grouped.{apart, bears, takes_in, Grouped};
ghost use Rattle.room.specs.Words.{met_word, met_by, Made};
ghost use Rattle.room.specs.Room.{Counted, lacks, room_by, slack_of, lesser, slack_by};

use week::{Lot, Rules, Slot, Week};

// Whether two lots may never stand in one slot.
fn is_apart(rules: &Rules<'_>, p: Lot, q: Lot) -> bool
    ensures { result ≡ apart rules.now.lots rules.now.ties.now p.0 q.0 }
{
    (0..16).all(|v| !rules.may_stand(p, Slot(v), q, Slot(v)))
}

// A lot's group, which is a lot too: the lowest of it; lot 0 beyond the end. A list of groups is read here alone, as an order is by
// `week::slot_in`.
pub fn group_of(groups: &[u8], p: Lot) -> Lot
    ensures { result.0 ≡ get_or groups.now p.0 0 }
{
    Lot(groups.get(usize::from(p.0)).copied().unwrap_or(0))
}

// Whether lot q does not keep lot p out of group g: it is not in it, or the two may never stand in one slot.
#[tactic(auto, unfolding(crate::specs::Grouped::bears))]
fn is_borne(rules: &Rules<'_>, groups: &[u8], p: Lot, g: Lot, q: Lot) -> bool
    ensures { result ≡ bears rules.now.lots rules.now.ties.now groups.now p.0 g.0 q.0 }
{
    group_of(groups, q) != g || is_apart(rules, q, p)
}

// Whether lot g begins a group, and no lot of it before p may ever stand in one slot with p.
fn takes_in(rules: &Rules<'_>, groups: &[u8], p: Lot, g: Lot) -> bool
    ensures { result ≡ takes_in rules.now.lots rules.now.ties.now groups.now p.0 g.0 }
{
    group_of(groups, g) == g && (0..p.0).all(|q| is_borne(rules, groups, p, g, Lot(q)))
}

// The group of a lot, from those of the lots before it: the first that takes it in, or its own.
fn first_group(rules: &Rules<'_>, groups: &[u8], p: Lot) -> Lot
    ensures { result.0 ≡ scan_from p.0 (takes_in rules.now.lots rules.now.ties.now groups.now p.0) 0 }
{
    let first = (0..p.0).find(|g| takes_in(rules, groups, p, Lot(*g)));
    Lot(first.unwrap_or(p.0))
}

// Each lot's group, numbered by its lowest lot: no two lots of a group may ever stand in one slot.
pub fn groups(rules: &Rules<'_>) -> [u8; 24]
    requires { rules.now.lots ≤ 24 }
    ensures { Grouped rules.now.lots rules.now.ties.now rules.now.lots result }
{
    let mut made = [0u8; 24];
    for p in 0..rules.lots as u8 {
        made[usize::from(p)] = first_group(rules, &made, Lot(p)).0;
    }
    made
}

// Whether a lot is placed.
pub fn is_placed(order: &[u8], p: Lot) -> bool
    ensures { result ≡ placed 16 order.now p.0 }
{
    week::slot_in(order, p) < Slot(16)
}

// A lot's word once lot x gets slot v.
#[tactic(auto, unfolding(crate::specs::Words::met_word, crate::specs::Words::met_in))]
pub fn met_word(rules: &Rules<'_>, words: &[u16], x: Lot, v: Slot, p: Lot) -> u16
    ensures { result ≡ met_word rules.now.lots rules.now.ties.now words.now x.0 v.0 p.0 }
{
    let own = week::word_of(words, p);
    if p == x {
        own
    } else {
        own & rules.tie_word(x, v, p)
    }
}

// The word that f has for each of n lots.
fn words_by<F: Fn(Lot) -> u16>(n: u32, f: F) -> [u16; 24]
    requires few { n ≤ 24 }
    requires asked { F.IsAlwaysCallable f }
    ensures { (g : ℕ → ℕ) → ((p : Lot) (w : ℕ) → F.post f p w → w ≡ g p.0) → Made n g result }
{
    let mut words = [0u16; 24];
    for p in 0..n as u8 {
        words[usize::from(p)] = f(Lot(p));
    }
    words
}

// Every lot's word once lot x gets slot v.
pub fn met_words(rules: &Rules<'_>, words: &[u16], x: Lot, v: Slot) -> [u16; 24]
    requires { rules.now.lots ≤ 24 }
    ensures { Made rules.now.lots (met_word rules.now.lots rules.now.ties.now words.now x.0 v.0) result }
{
    // A copy, by which the table's place stays in a register while the words are written: the search asks this most.
    let rules = *rules;
    words_by(rules.lots, |p| met_word(&rules, words, x, v, p))
}

// Every lot's word, by value: those of the domains are the forward words where no lot is placed.
pub fn first_words(rules: &Rules<'_>) -> [u16; 24]
    requires { rules.now.lots ≤ 24 }
    ensures { Made rules.now.lots (λ p. get_or rules.now.domain.now p 0) result }
{
    words_by(rules.lots, |p| week::word_of(rules.domain, p))
}

// What the lots that an order places leave of each lot's word: of the domains, the forward words.
pub fn words_of(rules: &Rules<'_>, order: &[u8]) -> [u16; 24]
    requires { rules.now.lots ≤ 24 }
    ensures { Made rules.now.lots (met_by rules.now.lots rules.now.ties.now rules.now.domain.now order.now rules.now.lots) result }
{
    let mut words = first_words(rules);
    for p in 0..rules.lots as u8 {
        let x = Lot(p);
        if is_placed(order, x) {
            words = met_words(rules, &words, x, week::slot_in(order, x));
        }
    }
    words
}

// The lots of a group that wait, and the slots that are left to any of them.
#[derive(Clone, Copy, Debug, PartialEq, Eq)]
pub struct Room {
    pub lots: u8,
    pub slots: u16,
}

impl Room {
    // How many slots there are too few for the lots.
    #[tactic(auto, unfolding(crate::specs::Room::lacks))]
    fn lack(self) -> u32
        ensures { result ≡ lacks self.lots self.slots }
    {
        u32::from(self.lots).saturating_sub(self.slots.count_ones())
    }

    // One more than the slots that the lots leave over; 0 where they are too few, and 17 for fewer than two lots.
    #[tactic(auto, unfolding(crate::specs::Room::slack_of))]
    fn slack(self) -> u32
        ensures { result ≡ slack_of self.lots self.slots }
    {
        if self.lots < 2 {
            17
        } else {
            (self.slots.count_ones() + 1).saturating_sub(u32::from(self.lots))
        }
    }

    // Whether two lots or more have no slot to spare.
    pub fn is_full(self) -> bool
        ensures { result ≡ leb (slack_of self.lots self.slots) 1 }
    {
        self.slack() <= 1
    }
}

// A partial order of a week, as the search holds it: where its placed lots stand, the slots left to each lot beside them, and each
// lot's group.
#[derive(Clone, Copy)]
pub struct Partial<'a> {
    pub week: Week<'a>,
    pub order: &'a [u8],
    pub words: &'a [u16],
    pub groups: &'a [u8],
}

impl Partial<'_> {
    // The waiting lots of every group and their slots, counted in one go.
    pub fn rooms(&self) -> [Room; 24]
        requires { self.now.week.numbers.n ≤ 24 }
        ensures { Counted self.now.order.now self.now.groups.now (λ q. get_or self.now.words.now q 0) self.now.week.numbers.n result }
    {
        let mut rooms = [Room { lots: 0, slots: 0 }; 24];
        let order = self.order;
        let words = self.words;
        let groups = self.groups;
        for p in 0..self.week.numbers.n as u8 {
            let q = Lot(p);
            if is_placed(order, q) {
                continue;
            }
            let g = usize::from(group_of(groups, q).0);
            if 24 <= g {
                continue;
            }
            let room = &mut rooms[g];
            room.lots += 1;
            room.slots |= week::word_of(words, q);
        }
        rooms
    }

    // Whether every group has room beside the decided moves m, if `left` more lots may move.
    pub fn has_room(&self, m: &[u8], left: u32) -> bool
        requires { self.now.week.numbers.n ≤ 24 }
        ensures { result ≡ room_by self.now.week.numbers.n self.now.week.ties.now self.now.order.now self.now.words.now self.now.groups.now m.now left }
    {
        let lots = self.week.numbers.n;
        let domain = self.words;
        let ties = self.week.ties;
        let met = words_of(&Rules { lots, domain, ties }, m);
        let words = &met;
        let rooms = Partial { words, ..*self }.rooms();
        rooms[..lots as usize]
            .iter()
            .all(|room| room.lack() <= left)
    }

    // How many slots more than lots the fullest group with two or more waiting lots has, plus 1; 0 where one has too few, and then no
    // super solution extends the order; 17 where there is no such group.
    pub fn slack(&self) -> u32
        requires { self.now.week.numbers.n ≤ 24 }
        ensures { result ≡ slack_by self.now.week.numbers.n self.now.order.now self.now.words.now self.now.groups.now }
    {
        let rooms = self.rooms();
        rooms[..self.week.numbers.n as usize]
            .iter()
            .fold(17, |least, room| least.min(room.slack()))
    }
}
