// The sheet that the desks share: opened on an order, copied by value, saved in place.
#![tactic(auto)]

ghost use Rattle.std.specs.Prelude.{◌≡◌, ◌&&◌, ◌≤◌, ◌<◌, length, get_or, set, take};
ghost use Rattle.lex.specs.Every.{every_of};
ghost use Rattle.lex.specs.Lists.{padded};
ghost use Rattle.week.specs.Refusal.{answer};
ghost use Rattle.week.specs.Rules.{rules_of};
ghost use Rattle.week.specs.Tables.{lent};
ghost use Rattle.sheet.specs.Moves.{move_of, move_at, moves_at, moves_of, names, move_ok, once, moves_ok, fresh_at, fresh_lot, fresh, stirs, placed_all, marked_all};
ghost use Rattle.sheet.specs.Sheet.{Lawful, blank, stands, opened, opened_of, sound_marks, sound, copied, copied_of, save_answer, with_moves, left, saved, saved_of};

use week::{Lot, Order, Refusal, Rules, Slot, Week};

// The most saves that a sheet can count.
const MOST_SAVES: u32 = 65535;

// The shared sheet: n, the order by lots, the number of accepted saves, and for each lot the save at which it last moved.
// Its own numbers are as wide as a caller may hand in: a service refuses a sheet that is none of its week.
#[repr(C)]
#[derive(Clone, Copy)]
pub struct Sheet {
    pub n: u32,
    pub order: [u8; 24],
    pub saves: u32,
    pub marks: [u32; 24],
}

// What open gives C: refusal or 0, and the sheet, all 0 where refused.
#[repr(C)]
#[derive(Clone, Copy)]
pub struct Opened {
    pub answer: u32,
    pub sheet: Sheet,
}

// What copy gives C: refusal or 0, the copy number and the order, 0 where refused.
#[repr(C)]
#[derive(Clone, Copy)]
pub struct Copied {
    pub answer: u32,
    pub copy: u32,
    pub order: [u8; 24],
}

// A desk's copy of the sheet: the save number at which it was taken, and the order.
#[derive(Clone, Copy)]
pub struct DeskCopy {
    pub number: u32,
    pub order: [u8; 24],
}

// One move: a lot, and the slot that it goes to.
#[derive(Clone, Copy)]
struct Move {
    lot: Lot,
    slot: Slot,
}

impl Default for Sheet {
    ghost is_default = { λ s. s ≡ blank };

    // A sheet that says nothing: every number is 0.
    #[tactic(auto, unfolding(crate::specs::Sheet::blank, crate::specs::Sheet::zeros))]
    fn default() -> Sheet {
        Sheet {
            n: 0,
            order: [0; 24],
            saves: 0,
            marks: [0; 24],
        }
    }
}

impl From<Result<Sheet, Refusal>> for Opened {
    ghost from_gives = { λ opening given. given ≡ opened_of opening };

    // The same for C: the refusal's number, and with it a sheet that says nothing.
    fn from(opening: Result<Sheet, Refusal>) -> Opened {
        match opening {
            Ok(sheet) => Opened { answer: 0, sheet },
            Err(refusal) => Opened {
                answer: refusal.number(),
                sheet: Sheet::default(),
            },
        }
    }
}

impl From<Result<DeskCopy, Refusal>> for Copied {
    ghost from_gives = { λ copying given. given ≡ copied_of copying };

    // The same for C: the refusal's number, and with it nothing of the sheet.
    #[tactic(auto, unfolding(crate::specs::Sheet::zeros))]
    fn from(copying: Result<DeskCopy, Refusal>) -> Copied {
        match copying {
            Ok(copy) => {
                // In a variable: the prover takes no array into a literal straight from a field.
                let order = copy.order;
                Copied {
                    answer: 0,
                    copy: copy.number,
                    order,
                }
            }
            Err(refusal) => Copied {
                answer: refusal.number(),
                copy: 0,
                order: [0; 24],
            },
        }
    }
}

// The slots of the first lots, then 0 up to 24 places.
fn pad(lots: usize, order: &[u8]) -> [u8; 24]
    requires { (lots ≤ 24) × (lots ≤ length order.now) }
    ensures { result ≡ padded 24 (take lots order.now) }
{
    let mut out = [0; 24];
    out[..lots].copy_from_slice(&order[..lots]);
    out
}

// Whether the lots of an order keep the rules; the places beyond them mean nothing.
fn lots_stand(rules: &Rules<'_>, order: &[u8]) -> bool
    requires { Lawful (rules_of rules.now) × (rules.now.lots ≤ length order.now) }
    ensures { result ≡ stands (rules_of rules.now) order.now }
{
    let lots = rules.lots as usize;
    rules.keeps(&order[..lots])
}

// A lot's mark; 0 beyond the marks' end.
fn mark_of(marks: &[u32], lot: Lot) -> u32
    ensures { result ≡ get_or marks.now lot.0 0 }
{
    marks.get(usize::from(lot.0)).copied().unwrap_or(0)
}

// Whether no lot's mark is above the save number.
fn marks_ok(lots: u32, saves: u32, marks: &[u32]) -> bool
    requires { lots ≤ 24 }
    ensures { result ≡ sound_marks lots saves marks.now }
{
    (0..lots as u8).all(|p| mark_of(marks, Lot(p)) <= saves)
}

// A new sheet on an order that keeps the rules: no saves, no marks.
pub fn open(week: &Week<'_>, order: &[u8]) -> Result<Sheet, Refusal>
    ensures { opened_of result ≡ opened (lent week.now) order.now }
{
    let n = week.numbers.n;
    let lots = n as usize;
    let judged = tables::judge(week);
    tables::join(true, order.len() == lots, judged)?;
    if !lots_stand(&week.rules(), order) {
        return Err(Refusal::Order);
    }
    Ok(Sheet {
        n,
        order: pad(lots, order),
        ..Sheet::default()
    })
}

impl Move {
    // A move as C writes it: the lot's byte, then the slot's.
    fn of(pair: &[u8; 2]) -> Move
        ensures { move_of result ≡ move_at pair.now }
    {
        Move {
            lot: Lot(pair[0]),
            slot: Slot(pair[1]),
        }
    }

    // Whether it is of a lot of the week, to a slot of its domain.
    #[tactic(auto, unfolding(crate::specs::Moves::move_ok))]
    fn is_ok(self, rules: &Rules<'_>) -> bool
        ensures { result ≡ move_ok rules.now.lots rules.now.domain.now (move_of self) }
    {
        u32::from(self.lot.0) < rules.lots
            && week::bit(week::word_of(rules.domain, self.lot), self.slot)
    }

    // Whether it is to another slot than the lot stands in.
    #[tactic(auto, unfolding(crate::specs::Moves::stirs))]
    fn stirs(self, order: &[u8]) -> bool
        ensures { result ≡ stirs order.now (move_of self) }
    {
        week::slot_in(order, self.lot) != self.slot
    }
}

// The moves of a save, pairs of bytes; a last odd byte is none.
fn moves_in(bytes: &[u8]) -> &[[u8; 2]]
    ensures { moves_at result.now ≡ moves_of bytes.now }
{
    bytes.as_chunks::<2>().0
}

// Whether every move is of a lot of the week, to a slot of its domain.
fn each_ok(rules: &Rules<'_>, moves: &[[u8; 2]]) -> bool
    ensures { result ≡ every_of (move_ok rules.now.lots rules.now.domain.now) (moves_at moves.now) }
{
    moves.iter().all(|pair| Move::of(pair).is_ok(rules))
}

// Whether a move names a lot.
fn names_lot(moves: &[[u8; 2]], lot: Lot) -> bool
    ensures { result ≡ names (moves_at moves.now) lot.0 }
{
    moves.iter().any(|pair| Move::of(pair).lot == lot)
}

// Whether no lot is named twice.
#[tactic(auto, unfolding(crate::specs::Moves::once))]
fn lots_once(moves: &[[u8; 2]]) -> bool
    ensures { result ≡ once (moves_at moves.now) }
{
    let mut rest = moves;
    while let Some((pair, later)) = rest.split_first() {
        if names_lot(later, Move::of(pair).lot) {
            return false;
        }
        rest = later;
    }
    true
}

// Whether the moves are well formed: whole pairs, 1 to n of them, each right, no lot twice.
#[tactic(auto, unfolding(crate::specs::Moves::moves_ok))]
fn moves_ok(rules: &Rules<'_>, bytes: &[u8]) -> bool
    requires { rules.now.lots ≤ 24 }
    ensures { result ≡ moves_ok rules.now.lots rules.now.domain.now bytes.now }
{
    let moves = moves_in(bytes);
    !bytes.is_empty()
        && bytes.len() <= rules.lots as usize * 2
        && bytes.len() % 2 == 0
        && each_ok(rules, moves)
        && lots_once(moves)
}

// Whether lot q does not make a move of lot p stale: it is not p, nor tied to it, or has no mark above the copy number.
#[tactic(auto, unfolding(crate::specs::Moves::fresh_at, crate::specs::Moves::near))]
fn mark_fresh(rules: &Rules<'_>, marks: &[u32], copy: u32, p: Lot, q: Lot) -> bool
    ensures { result ≡ fresh_at (rules_of rules.now) marks.now copy p.0 q.0 }
{
    mark_of(marks, q) <= copy || p != q && !rules.is_tied(p, q)
}

// Whether neither a moved lot nor one tied to it has a mark above the copy number.
fn lot_fresh(rules: &Rules<'_>, marks: &[u32], copy: u32, p: Lot) -> bool
    requires { rules.now.lots ≤ 24 }
    ensures { result ≡ fresh_lot (rules_of rules.now) marks.now copy p.0 }
{
    (0..rules.lots as u8).all(|q| mark_fresh(rules, marks, copy, p, Lot(q)))
}

// Whether no move is stale.
fn all_fresh(rules: &Rules<'_>, marks: &[u32], copy: u32, moves: &[[u8; 2]]) -> bool
    requires { rules.now.lots ≤ 24 }
    ensures { result ≡ fresh (rules_of rules.now) marks.now copy (moves_at moves.now) }
{
    moves
        .iter()
        .all(|pair| lot_fresh(rules, marks, copy, Move::of(pair).lot))
}

// Whether every move is to another slot.
fn all_stir(order: &[u8], moves: &[[u8; 2]]) -> bool
    ensures { result ≡ every_of (stirs order.now) (moves_at moves.now) }
{
    moves.iter().all(|pair| Move::of(pair).stirs(order))
}

// The order with the moves placed, one after another.
fn place(order: [u8; 24], moves: &[[u8; 2]]) -> [u8; 24]
    ensures { result ≡ placed_all (moves_at moves.now) order }
{
    let mut out = Order { slots: order };
    for pair in moves {
        let to = Move::of(pair);
        out = out.placed(to.lot, to.slot);
    }
    out.slots
}

// A lot's mark into the marks; beyond their end nothing changes.
fn put_mark(marks: &mut [u32], lot: Lot, save: u32)
    ensures { marks.new ≡ set marks.old lot.0 save }
{
    // Not `get_mut`: what it promises does not say that the other marks stay, nor that all do where it gives none.
    let at = usize::from(lot.0);
    if at < marks.len() {
        marks[at] = save;
    }
}

// The marks with every moved lot's set to the save number.
fn mark(marks: [u32; 24], moves: &[[u8; 2]], save: u32) -> [u32; 24]
    ensures { result ≡ marked_all save (moves_at moves.now) marks }
{
    let mut out = marks;
    for pair in moves {
        put_mark(&mut out, Move::of(pair).lot, save);
    }
    out
}

// Whether every move is to another slot and the order with them keeps the rules.
fn result_ok(rules: &Rules<'_>, order: [u8; 24], moves: &[[u8; 2]]) -> bool
    requires { Lawful (rules_of rules.now) }
    ensures { result ≡ (every_of (stirs order) (moves_at moves.now) && stands (rules_of rules.now) (placed_all (moves_at moves.now) order)) }
{
    all_stir(&order, moves) && lots_stand(rules, &place(order, moves))
}

impl Sheet {
    // Whether it is a sheet of this week.
    #[tactic(auto, unfolding(crate::specs::Sheet::sound))]
    fn is_sound(&self, rules: &Rules<'_>) -> bool
        requires { Lawful (rules_of rules.now) }
        ensures { result ≡ sound (rules_of rules.now) self.now }
    {
        self.n == rules.lots
            && self.saves <= MOST_SAVES
            && lots_stand(rules, &self.order)
            && marks_ok(rules.lots, self.saves, &self.marks)
    }

    // The order by value and the save number, which is its copy number.
    #[tactic(auto, unfolding(crate::specs::Sheet::copied, crate::specs::Sheet::copy_answer), using(week::proofs::Numbered::number_some))]
    pub fn copy(self, week: &Week<'_>) -> Result<DeskCopy, Refusal>
        ensures { copied_of result ≡ copied (lent week.now) self }
    {
        tables::judge(week)?;
        if !self.is_sound(&week.rules()) {
            return Err(Refusal::Sheet);
        }
        Ok(DeskCopy {
            number: self.saves,
            order: pad(week.numbers.n as usize, &self.order),
        })
    }

    // Whether a save is accepted: each check in its turn.
    #[tactic(auto, unfolding(crate::specs::Sheet::save_answer, crate::specs::Sheet::result_ok))]
    fn judge(&self, week: &Week<'_>, copy: u32, bytes: &[u8]) -> Result<(), Refusal>
        ensures { answer result ≡ save_answer (lent week.now) self.now copy bytes.now }
    {
        tables::judge(week)?;
        let rules = week.rules();
        if !self.is_sound(&rules) {
            return Err(Refusal::Sheet);
        }
        if self.saves < copy {
            return Err(Refusal::Copy);
        }
        if !moves_ok(&rules, bytes) {
            return Err(Refusal::Moves);
        }
        let moves = moves_in(bytes);
        if !all_fresh(&rules, &self.marks, copy, moves) {
            return Err(Refusal::Stale);
        }
        if !result_ok(&rules, self.order, moves) {
            return Err(Refusal::Result);
        }
        if MOST_SAVES <= self.saves {
            return Err(Refusal::Full);
        }
        Ok(())
    }

    // The sheet with the moves of an accepted save: one save more, and its number for a mark of every moved lot.
    #[tactic(auto, unfolding(crate::specs::Sheet::with_moves))]
    fn moved(&self, bytes: &[u8]) -> Sheet
        requires { self.now.saves < 65535 }
        ensures { result ≡ with_moves self.now bytes.now }
    {
        let moves = moves_in(bytes);
        let saves = self.saves + 1;
        Sheet {
            n: self.n,
            order: place(self.order, moves),
            saves,
            marks: mark(self.marks, moves, saves),
        }
    }

    // A save by value: the sheet afterwards, where it is accepted.
    #[tactic(auto, unfolding(crate::specs::Sheet::saved), using(week::proofs::Numbered::number_some))]
    pub fn put_moves(self, week: &Week<'_>, copy: u32, moves: &[u8]) -> Result<Sheet, Refusal>
        ensures { saved_of self result ≡ saved (lent week.now) self copy moves.now }
    {
        self.judge(week, copy, moves)?;
        Ok(self.moved(moves))
    }

    // A save on the one shared sheet, in place; refused, it is as it was.
    pub fn save(&mut self, week: &Week<'_>, copy: u32, moves: &[u8]) -> Result<(), Refusal>
        ensures { left (answer result) self.new ≡ saved (lent week.now) self.old copy moves.now }
    {
        *self = self.put_moves(week, copy, moves)?;
        Ok(())
    }
}
