// The C interface: one thin export for each service. include/elurkantza.h declares them.
#![tactic(auto)]

ghost use Rattle.std.specs.Prelude.{◌≡◌};
ghost use Rattle.week.specs.Refusal.{answer};
ghost use Rattle.week.specs.Tables.{week, lent};
ghost use Rattle.repair.specs.Service.{Repaired};
ghost use Rattle.solve.specs.Service.{Solved};
ghost use Rattle.solve.specs.Judging.{Judged};
ghost use Rattle.sheet.specs.Sheet.{opened, copied, left, saved};
ghost use Rattle.block.specs.File.{written, write_of};
ghost use Rattle.block.specs.Reading.{given, read_of};
ghost use Rattle.elurkantza.specs.Calls.{numbers, Shown};

use block::Reading;
use sheet::{Copied, Opened, Sheet};
use solve::Checked;
use week::{Numbers, Refusal, Week};

// The six numbers, which C hands over one by one.
fn numbers(n: u32, a: u32, b: u32, alternative: u32, gap: u32, helper: u32) -> Numbers
    ensures { result ≡ numbers n a b alternative gap helper }
{
    Numbers {
        n,
        a,
        b,
        alternative,
        gap,
        helper,
    }
}

// The week that C lends.
fn lent<'a>(
    numbers: Numbers,
    domain: &'a [u16],
    loss: &'a [u16],
    give: &'a [u16],
    ties: &'a [u16],
) -> Week<'a>
    ensures { lent result ≡ week numbers domain.now loss.now give.now ties.now }
{
    Week {
        numbers,
        domain,
        loss,
        give,
        ties,
    }
}

// What C is told of a call that only answers: 0, or the number of its refusal.
fn answer(done: Result<(), Refusal>) -> u32
    ensures { result ≡ answer done }
{
    match done {
        Ok(()) => 0,
        Err(refusal) => refusal.number(),
    }
}

// The first super solution into `order`, its repairs into `table`.
#[unsafe(no_mangle)]
pub extern "C" fn elurkantza_solve(
    n: u32,
    a: u32,
    b: u32,
    alternative: u32,
    gap: u32,
    helper: u32,
    domain: &[u16],
    loss: &[u16],
    give: &[u16],
    ties: &[u16],
    order: &mut [u8],
    table: &mut [u8],
) -> u32
    ensures { Solved (week (numbers n a b alternative gap helper) domain.now loss.now give.now ties.now) order.old table.old result order.new table.new }
{
    let numbers = numbers(n, a, b, alternative, gap, helper);
    answer(solve::solve(&lent(numbers, domain, loss, give, ties), order, table))
}

// Judges an order and its table; with 7 comes the number of the first wrong row.
#[unsafe(no_mangle)]
pub extern "C" fn elurkantza_check(
    n: u32,
    a: u32,
    b: u32,
    alternative: u32,
    gap: u32,
    helper: u32,
    domain: &[u16],
    loss: &[u16],
    give: &[u16],
    ties: &[u16],
    order: &[u8],
    table: &[u8],
) -> Checked
    ensures { Judged (week (numbers n a b alternative gap helper) domain.now loss.now give.now ties.now) order.now table.now result.answer result.row }
{
    let numbers = numbers(n, a, b, alternative, gap, helper);
    Checked::from(solve::check(&lent(numbers, domain, loss, give, ties), order, table))
}

// The first repair of `order` for the lots in `lost`, into `out`.
#[unsafe(no_mangle)]
pub extern "C" fn elurkantza_repair(
    n: u32,
    a: u32,
    b: u32,
    alternative: u32,
    gap: u32,
    helper: u32,
    domain: &[u16],
    loss: &[u16],
    give: &[u16],
    ties: &[u16],
    order: &[u8],
    lost: &[u8],
    out: &mut [u8],
) -> u32
    ensures { Repaired (week (numbers n a b alternative gap helper) domain.now loss.now give.now ties.now) order.now lost.now out.old result out.new }
{
    let numbers = numbers(n, a, b, alternative, gap, helper);
    answer(repair::repair(&lent(numbers, domain, loss, give, ties), order, lost, out))
}

// The order to run goes into a buffer of n bytes.
fn show_row(
    n: u32,
    a: u32,
    order: &[u8],
    table: &[u8],
    lost: &[u8],
    out: &mut [u8],
) -> Result<(), Refusal>
    ensures { Shown n a order.now table.now lost.now out.old (answer result) out.new }
{
    repair::row_refusal(n, a, order, table, lost)?;
    if out.len() != n as usize {
        return Err(Refusal::Lengths);
    }
    let run = repair::row(n, a, order, table, lost);
    repair::copy_slots(run, out);
    Ok(())
}

// The order to run, copied into `out`: C has no part of what it lent.
#[unsafe(no_mangle)]
pub extern "C" fn elurkantza_row<'a>(
    n: u32,
    a: u32,
    order: &'a [u8],
    table: &'a [u8],
    lost: &[u8],
    out: &mut [u8],
) -> u32
    ensures { Shown n a order.now table.now lost.now out.old result out.new }
{
    answer(show_row(n, a, order, table, lost, out))
}

// A new sheet on an order that keeps the rules.
#[unsafe(no_mangle)]
pub extern "C" fn elurkantza_open(
    n: u32,
    a: u32,
    b: u32,
    alternative: u32,
    gap: u32,
    helper: u32,
    domain: &[u16],
    loss: &[u16],
    give: &[u16],
    ties: &[u16],
    order: &[u8],
) -> Opened
    ensures { result ≡ opened (week (numbers n a b alternative gap helper) domain.now loss.now give.now ties.now) order.now }
{
    let numbers = numbers(n, a, b, alternative, gap, helper);
    Opened::from(sheet::open(&lent(numbers, domain, loss, give, ties), order))
}

// A copy of the shared sheet for a desk: the order, and its copy number.
#[unsafe(no_mangle)]
pub extern "C" fn elurkantza_copy(
    n: u32,
    a: u32,
    b: u32,
    alternative: u32,
    gap: u32,
    helper: u32,
    domain: &[u16],
    loss: &[u16],
    give: &[u16],
    ties: &[u16],
    sheet: Sheet,
) -> Copied
    ensures { result ≡ copied (week (numbers n a b alternative gap helper) domain.now loss.now give.now ties.now) sheet }
{
    let numbers = numbers(n, a, b, alternative, gap, helper);
    Copied::from(sheet.copy(&lent(numbers, domain, loss, give, ties)))
}

// A desk's save on the one shared sheet, in place.
#[unsafe(no_mangle)]
pub extern "C" fn elurkantza_save(
    n: u32,
    a: u32,
    b: u32,
    alternative: u32,
    gap: u32,
    helper: u32,
    domain: &[u16],
    loss: &[u16],
    give: &[u16],
    ties: &[u16],
    sheet: &mut Sheet,
    copy: u32,
    moves: &[u8],
) -> u32
    ensures { left result sheet.new ≡ saved (week (numbers n a b alternative gap helper) domain.now loss.now give.now ties.now) sheet.old copy moves.now }
{
    let numbers = numbers(n, a, b, alternative, gap, helper);
    answer(sheet.save(&lent(numbers, domain, loss, give, ties), copy, moves))
}

// The week of a block file: its six numbers, and its tables into the four buffers.
#[unsafe(no_mangle)]
pub extern "C" fn elurkantza_read(
    file: &[u8],
    domain: &mut [u16],
    loss: &mut [u16],
    give: &mut [u16],
    ties: &mut [u16],
) -> Reading
    ensures { given result.answer result.numbers domain.new loss.new give.new ties.new ≡ read_of file.now domain.old loss.old give.old ties.old }
{
    Reading::from(block::read(file, domain, loss, give, ties))
}

// The block file of a week, into `file`.
#[unsafe(no_mangle)]
pub extern "C" fn elurkantza_write(
    n: u32,
    a: u32,
    b: u32,
    alternative: u32,
    gap: u32,
    helper: u32,
    domain: &[u16],
    loss: &[u16],
    give: &[u16],
    ties: &[u16],
    file: &mut [u8],
) -> u32
    ensures { written result file.new ≡ write_of (week (numbers n a b alternative gap helper) domain.now loss.now give.now ties.now) file.old }
{
    let numbers = numbers(n, a, b, alternative, gap, helper);
    answer(block::write(&lent(numbers, domain, loss, give, ties), file))
}
