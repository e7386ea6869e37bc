// Marks beside sound records, for a caller that makes many calls: where the free slots of each class are, so that the lowest one is found in
// a fixed number of steps, however many chunks there are. A mark says that a run has a free slot, a top bit that a word has a mark, and a
// byte for each page which slot words of the run there have one. The class's numbers stand beside its marks.
#![tactic(auto)]

ghost use Rattle.std.specs.Prelude.{◌≡◌, true, ◌+◌, ◌*◌, ◌≤◌, ◌<◌, length, replicate};
ghost use Rattle.classes.specs.Classes.{size, slots, pages};
ghost use Rattle.records.specs.declared.Kind.TheVariants.{Class};
ghost use Rattle.records.specs.Pool.{kind_at};
ghost use Rattle.records.specs.Shown.{pool_of};
ghost use Rattle.records.specs.Lent.{lent, before, after};
ghost use Rattle.records.specs.Calls.{admit_of, leaves};
ghost use Rattle.hints.specs.Hints.{Cuts, Marks, started, Blank, Noted, Front, Took, marked, taking, giving};

use records::Records;
use refusals::{FREE_SLOT, NO_BLOCK};

// The numbers of a row: words of marks from 0 on, tops, masks of the slot words, the class's numbers.
const TOP: usize = 128;

const MASK: usize = 130;

const SIZE: usize = 138;

const COUNT: usize = 139;

const SHARE: usize = 140;

const ROW: usize = 144;

pub const ROWS: usize = 4320;

// A byte for each page.
pub const OPENS: usize = 8192;

// Room for the marks of any pool, for a caller that keeps them: the rows of all classes, and a byte for each page. The calls take the two parts
// as slices, so that marks may lie anywhere. A caller makes one and lends its parts on: it is too long to be copied.
#[derive(Drop)]
pub struct Hints {
    pub rows: [u64; ROWS],
    pub opens: [u8; OPENS],
}

impl Hints {
    // Room with no mark in it: `build` makes them.
    pub fn new() -> Hints
        ensures { (result.rows ≡ replicate 4320 0) × (result.opens ≡ replicate 8192 0) }
    {
        Hints {
            rows: [0; ROWS],
            opens: [0; OPENS],
        }
    }
}

// ---- one row

// The run at page g has a free slot: what put_mark does with v true, but quicker, since no word is read back. Each slot that is given back
// goes this way.
fn set_mark(row: &mut [u64], g: usize)
    requires { (length row.old ≡ 144) × (g < 8192) }
    ensures { row.new ≡ marked row.old g true }
{
    let j = g / 64;
    row[j] |= 1 << (g % 64);
    let t = TOP + j / 64;
    row[t] |= 1 << (j % 64);
}

// Takes the lowest free slot of a class: word j of its marks is the first that has one, and `top` the top word that says so. 512 times the
// slot's page, and its number.
fn take_at(
    bits: &[u64],
    words: &mut [u32],
    slots: &mut [u64],
    row: &mut [u64],
    opens: &mut [u8],
    j: usize,
    top: u64,
) -> usize
    requires { Front (lent bits.now words.old slots.old) row.old opens.old j top }
    ensures { (f : Front (before bits.now words.old slots.old) row.old opens.old j top)
        → Took f result (after bits.now words.new slots.new) row.new opens.new }
{
    let m = row[j];
    let g = 64 * j + bitrow::first_one(m) as usize;
    let o = u64::from(opens[g]);
    let k = bitrow::first_one(o) as usize;
    let i = 8 * g + k;
    let w = slots[i];
    let v = blocks::fill_word(bits, words, slots, i);
    let p = bitrow::without_lowest(o, v == row[MASK + k]);
    opens[g] = p as u8;
    let l = bitrow::without_lowest(m, p == 0);
    row[j] = l;
    row[TOP + j / 64] = bitrow::without_lowest(top, l == 0);
    64 * i + bitrow::first_zero(w) as usize
}

// Takes the lowest free slot of class b: 512 times its page and its number, where there is one.
pub fn take(
    c: u64,
    bits: &[u64],
    words: &mut [u32],
    slots: &mut [u64],
    rows: &mut [u64],
    opens: &mut [u8],
    b: usize,
) -> Option<usize>
    requires sound { admit_of c (lent bits.now words.old slots.old) ≡ 0 }
    requires marks { Marks (512 * c) (lent bits.now words.old slots.old) rows.old opens.old }
    requires class { b < 30 }
    ensures taken { leaves result (after bits.now words.new slots.new) ≡ taking c (before bits.now words.old slots.old) b }
    ensures marks { Marks (512 * c) (after bits.now words.new slots.new) rows.new opens.new }
{
    let from = ROW * b;
    let to = from + ROW;
    let low = rows[from + TOP];
    if low != 0 {
        let j = bitrow::first_one(low) as usize;
        return Some(take_at(bits, words, slots, &mut rows[from..to], opens, j, low));
    }
    let high = rows[from + TOP + 1];
    if high != 0 {
        let j = 64 + bitrow::first_one(high) as usize;
        return Some(take_at(bits, words, slots, &mut rows[from..to], opens, j, high));
    }
    None
}

// What starts at byte `off` of the run of class b at page g is given back: 0, or the refusal's number. Behind the last slot all bits are 0, so
// that the count is asked for only there.
#[tactic(auto, using(records::proofs::RunLaws::class_at_low))]
pub fn give(
    c: u64,
    bits: &[u64],
    words: &mut [u32],
    slots: &mut [u64],
    rows: &mut [u64],
    opens: &mut [u8],
    g: usize,
    b: usize,
    off: usize,
) -> u64
    requires sound { admit_of c (lent bits.now words.old slots.old) ≡ 0 }
    requires marks { Marks (512 * c) (lent bits.now words.old slots.old) rows.old opens.old }
    requires run { kind_at (lent bits.now words.old slots.old) g ≡ Class b }
    requires inside { (g < 512 * c) × (off < 4096 * pages b) }
    ensures given { leaves result (after bits.now words.new slots.new) ≡ giving (before bits.now words.old slots.old) g b off }
    ensures marks { Marks (512 * c) (after bits.now words.new slots.new) rows.new opens.new }
{
    let from = ROW * b;
    let s = (off * (rows[from + SHARE] as usize)) / 4294967296;
    if s * (rows[from + SIZE] as usize) != off {
        return NO_BLOCK;
    }
    let k = s / 64;
    let i = 8 * g + k;
    let bit = 1 << (s % 64);
    let w = slots[i];
    if (w & bit) == 0 {
        if (rows[from + COUNT] as usize) <= s {
            return NO_BLOCK;
        }
        return FREE_SLOT;
    }
    blocks::free_bit(bits, words, slots, i, bit);
    opens[g] |= 1 << k;
    let to = from + ROW;
    set_mark(&mut rows[from..to], g);
    0
}

// The run at page g has a free slot, or none.
fn put_mark(row: &mut [u64], g: usize, v: bool)
    requires { (length row.old ≡ 144) × (g < 8192) }
    ensures { row.new ≡ marked row.old g v }
{
    bitrow::put_bit(row, g, v);
    let w = row[g / 64];
    bitrow::put_bit(row, 8192 + g / 64, w != 0);
}

// The run of class b at page g is looked at anew: a slot word that is not the mask of its slots has a free one.
#[tactic(auto, using(records::proofs::RunLaws::class_at_low))]
pub fn note(pool: &Records, rows: &mut [u64], opens: &mut [u8], g: usize, b: usize)
    requires cuts { (Cuts rows.old) × (length opens.old ≡ 8192) }
    requires run { kind_at (pool_of pool.now) g ≡ Class b }
    requires inside { g < 512 * pool.now.chunks }
    ensures { Noted (pool_of pool.now) b g rows.old opens.old rows.new opens.new }
{
    let from = ROW * b;
    let mut o: u8 = 0;
    for k in 0..8 {
        if pool.slots[8 * g + k] != rows[from + MASK + k] {
            o |= 1 << k;
        }
    }
    opens[g] = o;
    let to = from + ROW;
    put_mark(&mut rows[from..to], g, o != 0);
}

// The marks of the pages up to g, page g among them.
fn note_page(pool: &Records, rows: &mut [u64], opens: &mut [u8], g: usize)
    requires marks { Marks g (pool_of pool.now) rows.old opens.old }
    requires inside { g < 512 * pool.now.chunks }
    ensures { Marks (g + 1) (pool_of pool.now) rows.new opens.new }
{
    if let records::Kind::Class(b) = pool.kind_at(g) {
        note(pool, rows, opens, g, b);
    }
}

// The marks of a pool, whatever the rows held.
pub fn build(pool: &Records, rows: &mut [u64], opens: &mut [u8])
    requires long { length rows.old ≡ 4320 }
    requires wide { length opens.old ≡ 8192 }
    ensures { Marks (512 * pool.now.chunks) (pool_of pool.now) rows.new opens.new }
{
    start_rows(rows);
    let n = 512 * (pool.chunks as usize);
    for g in 0..n {
        note_page(pool, rows, opens, g);
    }
}

// ---- how the rows start

// The number at place j, from the masks on, of the row of class b, whose runs have n slots of so many bytes.
fn number_of(b: usize, bytes: u64, n: usize, j: usize) -> u64
    requires class { b < 30 }
    requires bytes { bytes ≡ size b }
    requires count { n ≡ slots b }
    requires place { 130 ≤ j }
    ensures { result ≡ started b j }
{
    if j < SIZE {
        let from = 64 * (j - MASK);
        if n <= from {
            return 0;
        }
        return u64::MAX >> (64 - (n - from).min(64));
    }
    match j {
        COUNT => n as u64,
        SHARE => 4294967295 / bytes + 1,
        _ => bytes,
    }
}

// The numbers of all classes, fourteen each, and no mark.
fn start_rows(rows: &mut [u64])
    requires { length rows.old ≡ 4320 }
    ensures { Blank rows.new }
{
    rows.fill(0);
    let table = classes::class_rows();
    for (b, class) in table.iter().enumerate() {
        let bytes = u64::from(class.size);
        let n = usize::from(class.slots);
        for j in MASK..ROW {
            rows[ROW * b + j] = number_of(b, bytes, n, j);
        }
    }
}
