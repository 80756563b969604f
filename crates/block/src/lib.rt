// The block file: a week in blocks of 512 bytes, each with its own check. Services read and write.
#![tactic(auto)]

ghost use Rattle.std.specs.Prelude.{◌≡◌, true, cond, Result, ◌+◌, ◌*◌, ◌/◌, ◌%◌, ◌^◌, ◌≤◌, ◌<◌, length, get_or, IfOk};
ghost use Rattle.lex.specs.Lists.{padded};
ghost use Rattle.week.specs.Refusal.{answer};
ghost use Rattle.week.specs.Rules.{rules, bit_of, word_of};
ghost use Rattle.week.specs.Tables.{lent, numbers_ok, lot_ok_at, words_ok, ties_ok};
ghost use Rattle.block.specs.Fnv.{fnv};
ghost use Rattle.block.specs.Parts.{or_zero};
ghost use Rattle.block.specs.Content.{content_size, number_at, table_word, content_byte};
ghost use Rattle.block.specs.File.{blocks, body_byte, body, block_of, file_of, written, write_of};
ghost use Rattle.block.specs.Reading.{place, content_in, word_in, numbers_in, words_in, pair_word_in, pair_bit_in, tie_in, ties_in, week_of, buffers_ok, whole_blocks, holds4, block_refusal, blocks_refusal, filling_ok, held_refusal, file_refusal, tie_held, given, numbers_of, read_of};

use std::cmp::Ordering;
use week::{Lot, Numbers, Refusal, Slot, Week};

// What C is given of a reading, beside the lent buffers: the C interface has no `Result`.
#[repr(C)]
#[derive(Clone, Copy)]
pub struct Reading {
    pub answer: u32,
    pub numbers: Numbers,
}

impl From<Result<Numbers, Refusal>> for Reading {
    // The numbers and 0, or the number of the refusal and 0 throughout.
    fn from(read: Result<Numbers, Refusal>) -> Self
        ensures { (result.answer ≡ answer read) × (result.numbers ≡ numbers_of read) }
    {
        match read {
            Ok(numbers) => Reading { answer: 0, numbers },
            Err(refusal) => Reading {
                answer: refusal.number(),
                numbers: Numbers {
                    n: 0,
                    a: 0,
                    b: 0,
                    alternative: 0,
                    gap: 0,
                    helper: 0,
                },
            },
        }
    }
}

// The product modulo 2 ^ 32.
fn mul_wrapping(a: u32, b: u32) -> u32
    ensures { result ≡ a * b % 2 ^ 32 }
{
    a.wrapping_mul(b)
}

// The 32-bit FNV-1a hash of bytes: each byte goes in by an exclusive or, before the multiplication. Public, so that its published vectors can be run.
#[tactic(auto, using(crate::proofs::Fnv::fnv_start, crate::proofs::Fnv::fnv_next, crate::proofs::Fnv::fnv_end))]
pub fn fnv1a(s: &[u8]) -> u32
    ensures { result ≡ fnv s.now }
{
    let mut hash: u32 = 2166136261;
    for &byte in s {
        hash = mul_wrapping(hash ^ u32::from(byte), 16777619);
    }
    hash
}

// How many bytes of content n lots have.
#[tactic(auto, unfolding(crate::specs::Content::content_size))]
fn content_size(n: u32) -> usize
    requires { (1 ≤ n) × (n ≤ 24) }
    ensures { result ≡ content_size n }
{
    let lots = n as usize;
    6 + 6 * lots + 16 * (lots * (lots - 1))
}

// How many blocks n lots need.
#[tactic(auto, unfolding(crate::specs::File::blocks), using(crate::proofs::Sizes::rounded_up))]
fn blocks_for(n: u32) -> usize
    requires { (1 ≤ n) × (n ≤ 24) }
    ensures { result ≡ blocks n }
{
    content_size(n).div_ceil(504)
}

// Number i of the six, which are within their limits and so bytes.
#[tactic(auto, unfolding(crate::specs::Content::number_at))]
fn number_at(numbers: Numbers, i: usize) -> u8
    requires { (numbers_ok numbers ≡ true) × (i < 6) }
    ensures { result ≡ number_at numbers i }
{
    let six = [
        numbers.n,
        numbers.a,
        numbers.b,
        numbers.alternative,
        numbers.gap,
        numbers.helper,
    ];
    six[i] as u8
}

// Word j of one table; 0 beyond its end.
fn word_at(words: &[u16], j: usize) -> u16
    ensures { result ≡ get_or words.now j 0 }
{
    words.get(j).copied().unwrap_or(0)
}

// Word j of the tables, in the order of the file.
fn table_word(week: &Week<'_>, j: usize) -> u16
    requires { (1 ≤ week.now.numbers.n) × (week.now.numbers.n ≤ 24) }
    ensures { result ≡ table_word (lent week.now) j }
{
    let lots = week.numbers.n as usize;
    if j < lots {
        return word_at(week.domain, j);
    }
    if j < 2 * lots {
        return word_at(week.loss, j - lots);
    }
    if j < 3 * lots {
        return word_at(week.give, j - 2 * lots);
    }
    let i = j - 3 * lots;
    let pair = pairs::pair_at(week.numbers.n, i / 16);
    week.rules()
        .tie_word(pair.low, Slot((i % 16) as u8), pair.high)
}

// Byte i of the content.
fn content_byte(week: &Week<'_>, i: usize) -> u8
    requires { numbers_ok week.now.numbers ≡ true }
    ensures { result ≡ content_byte (lent week.now) i }
{
    if i < 6 {
        return number_at(week.numbers, i);
    }
    if content_size(week.numbers.n) <= i {
        return 0;
    }
    let word = table_word(week, (i - 6) / 2);
    word.to_le_bytes()[(i - 6) % 2]
}

// Byte i of the body of block b: its number, then its content.
#[tactic(auto, using(crate::proofs::Content::body_number_of, crate::proofs::Content::body_content))]
fn body_byte(week: &Week<'_>, b: usize, i: usize) -> u8
    requires { (numbers_ok week.now.numbers ≡ true) × (b < 18) × (i < 508) }
    ensures { result ≡ body_byte (lent week.now) b i }
{
    if i < 4 {
        return (b as u32).to_le_bytes()[i];
    }
    content_byte(week, b * 504 + (i - 4))
}

// The body of block b goes into its part of the block.
fn put_body(week: &Week<'_>, b: usize, part: &mut [u8])
    requires { (numbers_ok week.now.numbers ≡ true) × (b < 18) × (length part.old ≡ 508) }
    ensures { part.new ≡ body (lent week.now) b }
{
    for (i, byte) in part.iter_mut().enumerate() {
        *byte = body_byte(week, b, i);
    }
}

// Block b goes into its part of the file. It starts as 512 zero bytes; then its body and its check, little endian, go in.
fn put_block(week: &Week<'_>, b: usize, part: &mut [u8])
    requires { (numbers_ok week.now.numbers ≡ true) × (b < 18) × (length part.old ≡ 512) }
    ensures { part.new ≡ block_of (lent week.now) b }
{
    let mut block = [0u8; 512];
    let (content, check) = block.split_at_mut(508);
    put_body(week, b, content);
    check.copy_from_slice(&fnv1a(content).to_le_bytes());
    part.copy_from_slice(&block);
}

// Every block goes into a file of the needed length.
fn put_blocks(week: &Week<'_>, file: &mut [u8])
    requires { (numbers_ok week.now.numbers ≡ true) × (length file.old ≡ blocks week.now.numbers.n * 512) }
    ensures { file.new ≡ file_of (lent week.now) }
{
    for b in 0..blocks_for(week.numbers.n) {
        // With `chunks_exact_mut` the proof did not close: it knows nothing of what a chunk was given.
        put_block(week, b, &mut file[b * 512..b * 512 + 512]);
    }
}

// Service write: a week into a lent buffer of exactly the needed length. Refused with 1 to 4, nothing is written.
pub fn write(week: &Week<'_>, file: &mut [u8]) -> Result<(), Refusal>
    ensures { written (answer result) file.new ≡ write_of (lent week.now) file.old }
{
    let judged = tables::judge(week);
    if judged == Err(Refusal::Numbers) {
        return judged;
    }
    let fits = file.len() == blocks_for(week.numbers.n) * 512;
    tables::join(true, fits, judged)?;
    put_blocks(week, file);
    Ok(())
}

// Byte i of a file's content; 0 beyond the file's end.
#[tactic(auto, unfolding(crate::specs::Reading::content_in))]
fn content_in(file: &[u8], i: usize) -> u8
    requires { i < 65536 }
    ensures { result ≡ content_in file.now i }
{
    file.get(i / 504 * 512 + 4 + i % 504).copied().unwrap_or(0)
}

// Word j of a file's tables.
#[tactic(auto, unfolding(crate::specs::Reading::word_in))]
fn word_in(file: &[u8], j: usize) -> u16
    requires { j < 30000 }
    ensures { result ≡ word_in file.now j }
{
    let low = content_in(file, 6 + 2 * j);
    let high = content_in(file, 6 + 2 * j + 1);
    u16::from_le_bytes([low, high])
}

// The six numbers of a file.
#[tactic(auto, unfolding(crate::specs::Reading::numbers_in))]
fn numbers_in(file: &[u8]) -> Numbers
    ensures { result ≡ numbers_in file.now }
{
    Numbers {
        n: u32::from(content_in(file, 0)),
        a: u32::from(content_in(file, 1)),
        b: u32::from(content_in(file, 2)),
        alternative: u32::from(content_in(file, 3)),
        gap: u32::from(content_in(file, 4)),
        helper: u32::from(content_in(file, 5)),
    }
}

// A word table of the file: they stand in this order.
#[derive(Clone, Copy)]
enum Table {
    Domain,
    Loss,
    Give,
}

impl Table {
    // Which table of the file it is.
    fn place(self) -> usize
        ensures { result ≡ place self }
    {
        self as usize
    }
}

// The slots left beside a lot in slot v: the other lot's domain, and none where v is not in the lot's own.
fn slots_beside(own: u16, v: Slot, other: u16) -> u16
    ensures { result ≡ cond (bit_of own v.0) other 0 }
{
    if week::bit(own, v) { other } else { 0 }
}

// A file with its number of lots, which is within its limits.
#[derive(Clone, Copy)]
struct Held<'a> {
    file: &'a [u8],
    lots: u32,
    ghost few: { (1 ≤ lots) × (lots ≤ 24) },
}

impl Held<'_> {
    // A lot's word in a word table; 0 beyond the table.
    #[tactic(auto, using(crate::proofs::Checks::lot_inside, crate::proofs::Checks::lot_outside))]
    fn lot_word(&self, table: Table, p: usize) -> u16
        ensures { result ≡ or_zero (words_in self.now.file.now self.now.lots (place table)) p }
    {
        let lots = self.lots as usize;
        if lots <= p {
            return 0;
        }
        word_in(self.file, table.place() * lots + p)
    }

    // The word for lot p in slot v beside lot q, p < q.
    #[tactic(auto, unfolding(crate::specs::Reading::pair_word_in), using(crate::proofs::Checks::number_small))]
    fn pair_word(&self, p: Lot, q: Lot, v: Slot) -> u16
        requires { (p.0 < q.0) × (q.0 < self.now.lots) }
        ensures { result ≡ pair_word_in self.now.file.now self.now.lots p.0 q.0 v.0 }
    {
        let pair = pairs::pair_number(self.lots, p, q);
        word_in(
            self.file,
            3 * self.lots as usize + pair * 16 + usize::from(v.0),
        )
    }

    // The word for lot q in slot v beside lot p, p < q: slot w is in it where slot v is in the word for lot p in slot w beside lot q.
    fn mirrored(&self, p: Lot, q: Lot, v: Slot) -> u16
        requires { (p.0 < q.0) × (q.0 < self.now.lots) }
        ensures { result ≡ word_of (pair_bit_in self.now.file.now self.now.lots p.0 q.0 v.0) 16 }
    {
        let mut word: u16 = 0;
        for w in 0..16u8 {
            if week::bit(self.pair_word(p, q, Slot(w)), v) {
                word += 1 << w;
            }
        }
        word
    }

    // The word for lot p in slot v beside lot q.
    #[tactic(auto, using(crate::proofs::Ties::tie_before, crate::proofs::Ties::tie_after, crate::proofs::Ties::tie_same))]
    fn tie(&self, p: Lot, v: Slot, q: Lot) -> u16
        requires { (p.0 < self.now.lots) × (q.0 < self.now.lots) }
        ensures { result ≡ tie_in self.now.file.now self.now.lots p.0 v.0 q.0 }
    {
        match p.cmp(&q) {
            Ordering::Less => self.pair_word(p, q, v),
            Ordering::Greater => self.mirrored(q, p, v),
            Ordering::Equal => 0,
        }
    }

    // Word i of the tie table; 0 beyond the table.
    #[tactic(auto, using(crate::proofs::Ties::tie_inside, crate::proofs::Ties::tie_outside))]
    fn tie_at(&self, i: usize) -> u16
        ensures { result ≡ or_zero (ties_in self.now.file.now self.now.lots) i }
    {
        let lots = self.lots as usize;
        if lots * lots * 16 <= i {
            return 0;
        }
        let p = i / 16 / lots;
        let q = i / 16 % lots;
        self.tie(Lot(p as u8), Slot((i % 16) as u8), Lot(q as u8))
    }

    // Whether the rest of the last block is 0.
    #[tactic(auto, using(crate::proofs::Sizes::blocks_small))]
    fn is_filled(&self) -> bool
        ensures { result ≡ filling_ok self.now.file.now self.now.lots }
    {
        let size = content_size(self.lots);
        let end = blocks_for(self.lots) * 504;
        (size..end).all(|i| content_in(self.file, i) == 0)
    }

    // Whether a lot's three words are right.
    #[tactic(auto, using(crate::proofs::Checks::lot_held))]
    fn lot_held(&self, p: usize) -> bool
        ensures { result ≡ lot_ok_at (words_in self.now.file.now self.now.lots 0) (words_in self.now.file.now self.now.lots 1) (words_in self.now.file.now self.now.lots 2) p }
    {
        tables::lot_ok(
            self.lot_word(Table::Domain, p),
            self.lot_word(Table::Loss, p),
            self.lot_word(Table::Give, p),
        )
    }

    // Whether every lot's words are right.
    fn words_held(&self) -> bool
        ensures { result ≡ words_ok self.now.lots (words_in self.now.file.now self.now.lots 0) (words_in self.now.file.now self.now.lots 1) (words_in self.now.file.now self.now.lots 2) }
    {
        (0..self.lots as usize).all(|p| self.lot_held(p))
    }

    // Whether word i of the pairs' words has no slot outside the domains.
    #[tactic(auto, using(crate::proofs::Checks::tie_held_lem))]
    fn tie_held(&self, i: usize) -> bool
        requires { i < 9216 }
        ensures { result ≡ tie_held self.now.file.now self.now.lots i }
    {
        let pair = pairs::pair_at(self.lots, i / 16);
        let low = word_in(self.file, usize::from(pair.low.0));
        let high = word_in(self.file, usize::from(pair.high.0));
        let word = word_in(self.file, 3 * self.lots as usize + i);
        week::within(word, slots_beside(low, Slot((i % 16) as u8), high))
    }

    // Whether every pair's words are right; the words of (q, p) follow by symmetry, and those of a lot with itself are 0.
    fn ties_held(&self) -> bool
        ensures { result ≡ ties_ok (rules self.now.lots (words_in self.now.file.now self.now.lots 0) (ties_in self.now.file.now self.now.lots)) }
    {
        let lots = self.lots as usize;
        (0..8 * (lots * (lots - 1))).all(|i| self.tie_held(i))
    }

    // A word table goes into its lent buffer, unused words 0.
    fn fill_words(&self, table: Table, words: &mut [u16])
        requires { length words.old ≡ 24 }
        ensures { words.new ≡ padded 24 (words_in self.now.file.now self.now.lots (place table)) }
    {
        for (p, word) in words.iter_mut().enumerate() {
            *word = self.lot_word(table, p);
        }
    }

    // The tie table goes into its lent buffer, unused words 0.
    fn fill_ties(&self, ties: &mut [u16])
        requires { length ties.old ≡ 9216 }
        ensures { ties.new ≡ padded 9216 (ties_in self.now.file.now self.now.lots) }
    {
        for (i, word) in ties.iter_mut().enumerate() {
            *word = self.tie_at(i);
        }
    }
}

// Whether the lent buffers have their lengths.
#[tactic(auto, unfolding(crate::specs::Reading::buffers_ok))]
fn buffers_ok(domain: usize, loss: usize, give: usize, ties: usize) -> bool
    ensures { result ≡ buffers_ok domain loss give ties }
{
    [domain, loss, give, ties] == [24, 24, 24, 9216]
}

// Whether the file is 1 to 18 whole blocks.
#[tactic(auto, unfolding(crate::specs::Reading::whole_blocks))]
fn whole_blocks(file: &[u8]) -> bool
    ensures { result ≡ whole_blocks file.now }
{
    (512..=9216).contains(&file.len()) && file.len() % 512 == 0
}

// Whether the four bytes from `at` on are a number, little endian.
#[tactic(auto, using(crate::proofs::Bytes::four_stand))]
fn number_stands(file: &[u8], at: usize, x: u32) -> bool
    requires { at + 4 ≤ length file.now }
    ensures { result ≡ holds4 file.now at x }
{
    file[at..at + 4] == x.to_le_bytes()[..]
}

// What is wrong with block b: its check, then its number.
#[tactic(auto, unfolding(crate::specs::Reading::block_refusal), using(crate::proofs::Checks::check_is))]
fn block_refusal(file: &[u8], b: usize) -> Result<(), Refusal>
    requires { (b < 18) × (b * 512 + 512 ≤ length file.now) }
    ensures { answer result ≡ block_refusal file.now b }
{
    let from = b * 512;
    let check = fnv1a(&file[from..from + 508]);
    if !number_stands(file, from + 508, check) {
        return Err(Refusal::Check);
    }
    if !number_stands(file, from, b as u32) {
        return Err(Refusal::Block);
    }
    Ok(())
}

// The same, block by block.
#[tactic(auto, using(crate::proofs::Checks::blocks_none, crate::proofs::Checks::blocks_next, crate::proofs::Checks::blocks_stop))]
fn blocks_refusal(file: &[u8]) -> Result<(), Refusal>
    requires { length file.now ≤ 9216 }
    ensures { answer result ≡ blocks_refusal file.now (length file.now / 512) }
{
    for b in 0..file.len() / 512 {
        block_refusal(file, b)?;
    }
    Ok(())
}

// What is wrong with what the blocks hold.
#[tactic(auto, unfolding(crate::specs::Reading::held_refusal, crate::specs::Reading::week_of))]
fn held_refusal(file: &[u8], numbers: Numbers) -> Result<(), Refusal>
    ensures { answer result ≡ held_refusal (week_of numbers file.now) file.now }
{
    if !tables::numbers_ok(numbers) {
        return Err(Refusal::Numbers);
    }
    let lots = numbers.n;
    if file.len() != blocks_for(lots) * 512 {
        return Err(Refusal::Size);
    }
    let held = Held { file, lots };
    if !held.is_filled() {
        return Err(Refusal::Filling);
    }
    if !held.words_held() {
        return Err(Refusal::Words);
    }
    if !held.ties_held() {
        return Err(Refusal::Ties);
    }
    Ok(())
}

// The numbers of a file, if nothing is wrong with it, lent buffers aside.
#[tactic(auto, unfolding(crate::specs::Reading::file_refusal), using(crate::proofs::Checks::whole, week::proofs::Numbered::number_some))]
fn accepted(file: &[u8]) -> Result<Numbers, Refusal>
    ensures refusal { answer result ≡ file_refusal file.now }
    ensures numbers { IfOk result (λ N. N ≡ numbers_in file.now) }
{
    if !whole_blocks(file) {
        return Err(Refusal::Size);
    }
    blocks_refusal(file)?;
    let numbers = numbers_in(file);
    held_refusal(file, numbers)?;
    Ok(numbers)
}

// Service read: a file into lent buffers of 24, 24, 24 and 9,216 words. Nothing is written before the last refusal is known.
pub fn read(
    file: &[u8],
    domain: &mut [u16],
    loss: &mut [u16],
    give: &mut [u16],
    ties: &mut [u16],
) -> Result<Numbers, Refusal>
    ensures { given (answer result) (numbers_of result) domain.new loss.new give.new ties.new ≡ read_of file.now domain.old loss.old give.old ties.old }
{
    if !buffers_ok(domain.len(), loss.len(), give.len(), ties.len()) {
        return Err(Refusal::Lengths);
    }
    let numbers = accepted(file)?;
    let held = Held {
        file,
        lots: numbers.n,
    };
    held.fill_words(Table::Domain, domain);
    held.fill_words(Table::Loss, loss);
    held.fill_words(Table::Give, give);
    held.fill_ties(ties);
    Ok(numbers)
}
