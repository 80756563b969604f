// The text of the printing program: the plan of the week in a block file, or the file's refusal.
#![tactic(auto)]

ghost use Rattle.std.specs.Prelude.{◌≡◌, ◌*◌, ◌≤◌, length};
ghost use Rattle.week.specs.Refusal.{answer};
ghost use Rattle.week.specs.Tables.{lent, refusal};
ghost use Rattle.repair.specs.Break.{row_count};
ghost use Rattle.repair.specs.Found.{lots_of};
ghost use Rattle.print.specs.Text.{field, fields, plan_line, lost_line, refused_line, plan_text, room, text_length, Printed};
ghost use Rattle.print.specs.Put.{Fits, Wrote, pieces, table_line, table_text, week_text};

use repair::Lost;
use week::{Refusal, Week};

// A page: a lent buffer, and how many of its bytes are text. Whatever is put goes behind the text.
#[derive(Drop)]
struct Page<'a> {
    out: &'a mut [u8],
    end: usize,
}

impl Page<'_> {
    // A word.
    fn word(&mut self, word: &[u8])
        requires { Fits word.now self.old.end self.old.out.now }
        ensures { Wrote word.now self.old self.new }
    {
        let end = self.end + word.len();
        self.out[self.end..end].copy_from_slice(word);
        self.end = end;
    }

    // A space and a number of one or two digits.
    fn field(&mut self, x: u32)
        requires { Fits (field x) self.old.end self.old.out.now }
        ensures { Wrote (field x) self.old self.new }
    {
        if x < 10 {
            return self.word(&[b' ', b'0' + x as u8]);
        }
        self.word(&[b' ', b'0' + (x / 10 % 10) as u8, b'0' + (x % 10) as u8]);
    }

    // The slots of an order or a row, each with the space before it.
    fn fields(&mut self, slots: &[u8])
        requires { Fits (fields slots.now) self.old.end self.old.out.now }
        ensures { Wrote (fields slots.now) self.old self.new }
    {
        for &slot in slots {
            self.field(u32::from(slot));
        }
    }

    // The lots of a loss, each with the space before it.
    fn lots(&mut self, lost: Lost)
        requires { Fits (fields (lots_of lost)) self.old.end self.old.out.now }
        ensures { Wrote (fields (lots_of lost)) self.old self.new }
    {
        let first = lost.0;
        let last = lost.1;
        self.field(u32::from(first.0));
        if first.0 != last.0 {
            self.field(u32::from(last.0));
        }
    }

    // The line of the order.
    fn plan_line(&mut self, order: &[u8])
        requires { Fits (plan_line order.now) self.old.end self.old.out.now }
        ensures { Wrote (plan_line order.now) self.old self.new }
    {
        self.word(b"plan");
        self.fields(order);
        self.word(b"\n");
    }

    // The line of a row.
    fn lost_line(&mut self, lost: Lost, row: &[u8])
        requires { Fits (lost_line (lots_of lost) row.now) self.old.end self.old.out.now }
        ensures { Wrote (lost_line (lots_of lost) row.now) self.old self.new }
    {
        self.word(b"lost");
        self.lots(lost);
        self.word(b" :");
        self.fields(row);
        self.word(b"\n");
    }

    // The line of a refusal.
    fn refused(&mut self, number: u32)
        requires { Fits (refused_line number) self.old.end self.old.out.now }
        ensures { Wrote (refused_line number) self.old self.new }
    {
        self.word(b"refused");
        self.field(number);
        self.word(b"\n");
    }

    // The lines of the rows, in row order.
    fn rows(&mut self, n: u32, a: u32, table: &[u8])
        requires { (1 ≤ n) × (n ≤ 24) × (a ≤ 2) × (length table.now ≡ row_count n a * n) × Fits (pieces (table_line n a table.now) (row_count n a)) self.old.end self.old.out.now }
        ensures { Wrote (pieces (table_line n a table.now) (row_count n a)) self.old self.new }
    {
        let lots = n as usize;
        for i in 0..repair::row_count(n, a) {
            let from = i * lots;
            let to = from + lots;
            self.lost_line(robust::lost_at(n, i), &table[from..to]);
        }
    }

    // The plan of an order and its table.
    fn table(&mut self, n: u32, a: u32, order: &[u8], table: &[u8])
        requires { (1 ≤ n) × (n ≤ 24) × (a ≤ 2) × (length table.now ≡ row_count n a * n) × Fits (table_text n a order.now table.now) self.old.end self.old.out.now }
        ensures { Wrote (table_text n a order.now table.now) self.old self.new }
    {
        self.plan_line(order);
        self.rows(n, a, table);
    }

    // The plan of a week that is accepted, or refusal 5, on an empty page. The order and its table go through lent buffers of their
    // lengths.
    fn solved(&mut self, week: &Week<'_>, order: &mut [u8], table: &mut [u8])
        requires { (refusal (lent week.now) ≡ 0) × (length order.old ≡ week.now.numbers.n) × (length table.old ≡ row_count week.now.numbers.n week.now.numbers.a * week.now.numbers.n) × (self.old.end ≡ 0) × (length self.old.out.now ≡ room) }
        ensures { Wrote (week_text (lent week.now)) self.old self.new }
    {
        match solve::solve(week, order, table) {
            Ok(()) => self.table(week.numbers.n, week.numbers.a, order, table),
            Err(none) => self.refused(none.number()),
        }
    }

    // The same with buffers of its own.
    fn week(&mut self, week: &Week<'_>)
        requires { (refusal (lent week.now) ≡ 0) × (self.old.end ≡ 0) × (length self.old.out.now ≡ room) }
        ensures { Wrote (week_text (lent week.now)) self.old self.new }
    {
        let lots = week.numbers.n as usize;
        let size = repair::row_count(week.numbers.n, week.numbers.a) * lots;
        let mut order = [0u8; 24];
        let mut table = [0u8; 7200];
        self.solved(week, &mut order[..lots], &mut table[..size]);
    }

    // The plan of the week in a file, or the file's refusal, on an empty page.
    fn file(&mut self, file: &[u8])
        requires { (self.old.end ≡ 0) × (length self.old.out.now ≡ room) }
        ensures { Wrote (plan_text file.now) self.old self.new }
    {
        let mut domain = [0u16; 24];
        let mut loss = [0u16; 24];
        let mut give = [0u16; 24];
        let mut ties = [0u16; 9216];
        match block::read(file, &mut domain, &mut loss, &mut give, &mut ties) {
            Ok(numbers) => {
                let lots = numbers.n as usize;
                self.week(&Week {
                    numbers,
                    domain: &domain[..lots],
                    loss: &loss[..lots],
                    give: &give[..lots],
                    ties: &ties[..lots * lots * 16],
                });
            }
            Err(refusal) => self.refused(refusal.number()),
        }
    }
}

// The text that is printed for a block file, into a lent buffer of 25,600 bytes, 0 behind it: how many bytes of it are text. A buffer of
// another length is refused with 2, and stays as it is; a file that is refused has a text that says so.
pub fn plan_text(file: &[u8], out: &mut [u8]) -> Result<usize, Refusal>
    ensures { Printed file.now out.old (answer result) (text_length result) out.new }
{
    if out.len() != 25600 {
        return Err(Refusal::Lengths);
    }
    let mut page = Page { out, end: 0 };
    page.file(file);
    let end = page.end;
    page.out[end..].fill(0);
    Ok(end)
}
