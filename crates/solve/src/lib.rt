// Super solutions: the first one and its repair table; and the judgement of an order and table made elsewhere.
#![tactic(auto)]

ghost use Rattle.std.specs.Prelude.{◌≡◌, ◌*◌, ◌≤◌, length, true};
ghost use Rattle.week.specs.Refusal.{answer};
ghost use Rattle.week.specs.Tables.{lent, refusal, admits};
ghost use Rattle.repair.specs.Service.{row_lengths};
ghost use Rattle.solve.specs.Service.{Solved};
ghost use Rattle.solve.specs.declared.Fault.TheVariants.{Refused};
ghost use Rattle.solve.specs.Judging.{right, FirstWrong, judged_answer, judged_row, RowTold, Judged};
ghost use Rattle.repair.specs.Break.{row_count};
ghost use Rattle.repair.specs.Found.{lots_of};
ghost use Rattle.robust.specs.Super.{row_of, table_of};

use finish::Tally;
use repair::Case;
use week::{Refusal, Week};

// Why check refuses an order and its table.
#[derive(Clone, Copy, Debug, PartialEq, Eq)]
pub enum Fault {
    // The tables, the lengths or the order itself: refusals 1, 2, 3, 4 and 6.
    Refused(Refusal),
    // The row of this number is the first wrong one: refusal 7.
    Row(u32),
}

impl From<Refusal> for Fault {
    ghost from_gives = { λ refusal fault. fault ≡ Refused refusal };

    // A refusal that names no row.
    fn from(refusal: Refusal) -> Fault {
        Fault::Refused(refusal)
    }
}

// What check answers C: refusal or 0, and with 7 the number of the first wrong row, which is 0 otherwise.
#[repr(C)]
#[derive(Clone, Copy, Debug, PartialEq, Eq)]
pub struct Checked {
    pub answer: u32,
    pub row: u32,
}

impl From<Result<(), Fault>> for Checked {
    ghost from_gives = { λ judged checked. (checked.answer ≡ judged_answer judged) × (checked.row ≡ judged_row judged) };

    // A judgement in numbers.
    fn from(judged: Result<(), Fault>) -> Checked {
        match judged {
            Ok(()) => Checked { answer: 0, row: 0 },
            Err(Fault::Refused(refusal)) => Checked {
                answer: refusal.number(),
                row: 0,
            },
            Err(Fault::Row(row)) => Checked {
                answer: Refusal::Row.number(),
                row,
            },
        }
    }
}

// The row of a loss: the order, and over it the first repair if the loss is a break.
fn put_row(case: &Case<'_>, row: &mut [u8])
    requires { (refusal (lent case.now.week) ≡ 0) × ((length case.now.order.now ≡ case.now.week.numbers.n) × (length row.old ≡ case.now.week.numbers.n)) }
    ensures { row.new ≡ row_of (lent case.now.week) case.now.order.now (lots_of case.now.lost) }
{
    repair::copy_slots(case.order, row);
    if !robust::is_break(case) {
        return;
    }
    if let Some(to) = case.first_repair() {
        repair::copy_slots(&to.slots, row);
    }
}

// Every row of the repair table, one behind the other.
fn put_rows(week: &Week<'_>, order: &[u8], table: &mut [u8])
    requires { (refusal (lent week.now) ≡ 0) × ((length order.now ≡ week.now.numbers.n) × (length table.old ≡ row_count week.now.numbers.n week.now.numbers.a * week.now.numbers.n)) }
    ensures { table.new ≡ table_of (lent week.now) order.now }
{
    let numbers = week.numbers;
    let n = numbers.n as usize;
    // By number, as in wrong_row.
    for i in 0..repair::row_count(numbers.n, numbers.a) {
        let from = i * n;
        let to = from + n;
        let case = Case {
            week: *week,
            order,
            lost: robust::lost_at(numbers.n, i),
        };
        put_row(&case, &mut table[from..to]);
    }
}

// Refusals 1 to 4 of a service that is handed an order and its table.
fn table_admits(week: &Week<'_>, order: &[u8], table: &[u8]) -> Result<(), Refusal>
    ensures { answer result ≡ admits true (row_lengths week.now.numbers.n week.now.numbers.a order.now table.now) (lent week.now) }
{
    let numbers = week.numbers;
    let judged = tables::judge(week);
    if judged == Err(Refusal::Numbers) {
        return judged;
    }
    let two = repair::row_lengths(numbers.n, numbers.a, order, table);
    tables::join(true, two, judged)
}

// The first super solution into `order` and its repair table into `table`. Refuses with 1, 2, 3, 4 or 5, and then both are as they were.
pub fn solve(week: &Week<'_>, order: &mut [u8], table: &mut [u8]) -> Result<(), Refusal>
    ensures { Solved (lent week.now) order.old table.old (answer result) order.new table.new }
{
    table_admits(week, order, table)?;
    let mut tally = Tally::new();
    let Some(found) = finish::find_super(week, &mut tally) else {
        return Err(Refusal::NoSolution);
    };
    repair::copy_slots(&found.slots, order);
    put_rows(week, order, table);
    Ok(())
}

// How many partial orders the search of a week tries, for a benchmark alone; 0 where the tables are refused.
pub fn tried(week: &Week<'_>) -> u32
    ensures { (refusal (lent week.now) ≡ 0 → ⊥) → result ≡ 0 }
{
    let judged = tables::judge(week);
    if judged.is_err() {
        return 0;
    }
    let mut tally = Tally::new();
    finish::find_super(week, &mut tally);
    // A count that began at 1 and held at the highest number is told less that 1.
    tally.tried.min(4294967294)
}

// Whether a row is right for a loss: some repair of a break, and the order itself where the loss is none.
fn is_right(case: &Case<'_>, row: &[u8]) -> bool
    requires { (refusal (lent case.now.week) ≡ 0) × ((length case.now.order.now ≡ case.now.week.numbers.n) × (length row.now ≡ case.now.week.numbers.n)) }
    ensures { result ≡ right (lent case.now.week) case.now.order.now (lots_of case.now.lost) row.now }
{
    if !robust::is_break(case) {
        return row == case.order;
    }
    case.is_repair(row)
}

// The first wrong row of a table.
fn wrong_row(week: &Week<'_>, order: &[u8], table: &[u8]) -> Option<usize>
    requires { (refusal (lent week.now) ≡ 0) × ((length order.now ≡ week.now.numbers.n) × (length table.now ≡ row_count week.now.numbers.n week.now.numbers.a * week.now.numbers.n)) }
    ensures { FirstWrong (lent week.now) order.now table.now result }
{
    let numbers = week.numbers;
    let n = numbers.n as usize;
    // By number: with chunks_exact(n).enumerate() it was tried, and the proof did not close.
    for i in 0..repair::row_count(numbers.n, numbers.a) {
        let from = i * n;
        let to = from + n;
        let case = Case {
            week: *week,
            order,
            lost: robust::lost_at(numbers.n, i),
        };
        if !is_right(&case, &table[from..to]) {
            return Some(i);
        }
    }
    None
}

// Judges an order and its repair table, whoever made them: they are accepted if the order is a super solution, the row of each break
// some repair of it and every other row the order. Refuses with 1, 2, 3, 4, 6 or 7, and with 7 it gives the first wrong row.
pub fn check(week: &Week<'_>, order: &[u8], table: &[u8]) -> Result<(), Fault>
    ensures judged { Judged (lent week.now) order.now table.now (judged_answer result) (judged_row result) }
    ensures told { RowTold result }
{
    table_admits(week, order, table)?;
    let rules = week.rules();
    if !rules.keeps(order) {
        return Err(Fault::Refused(Refusal::Order));
    }
    if let Some(i) = wrong_row(week, order, table) {
        return Err(Fault::Row(i as u32));
    }
    Ok(())
}
