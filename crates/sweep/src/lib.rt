// Sweep: the empty runs, class runs with no taken slot, are given back as free pages. They are found on a copy of the page bits, so that a
// caller can see what a sweep would free before it makes one.
#![tactic(auto)]

ghost use Rattle.std.specs.Prelude.{◌≡◌, suc, ◌+◌, ◌*◌, ◌<◌, ◌≤◌, length};
ghost use Rattle.bitrow.specs.Row.{digit};
ghost use Rattle.records.specs.Shown.{pool_of};
ghost use Rattle.records.specs.Lent.{lent, before, after};
ghost use Rattle.records.specs.Sound.{idle};
ghost use Rattle.records.specs.Calls.{admit_of, leaves};
ghost use Rattle.sweep.specs.Sweep.{empty_from, swept, gained};
ghost use Rattle.sweep.specs.Found.{empty_to, Marked, Spare, WordsFreed};

use records::Records;

// The answer of a sweep; C reads it as it is.
#[repr(C)]
#[derive(Clone, Copy)]
pub struct Swept {
    pub refusal: u64,
    pub pages: u64,
}

// Of 64 pages, a 1 for each that lies in an empty run; and whether the last one does.
#[derive(Clone, Copy)]
pub struct Marks {
    pub mask: u64,
    pub last: u64,
}

// 1 where page g has no slot bit, else 0.
fn idle_page(bits: &[u64], words: &[u32], slots: &[u64], g: usize) -> u64
    requires { (g < 8192) × (8 * g + 8 ≤ length slots.now) }
    ensures { result ≡ digit (idle (before bits.now words.now slots.now) g) }
{
    u64::from(records::any_slot(slots, g) == 0)
}

// 1 where page g lies in an empty run, else 0; `last` is that of the page before it. Only slot words of class runs are read; those of a page
// behind the first are all 0, so that first page and others need no branch between them.
fn empty_page(pool: &Records, g: usize, last: u64) -> u64
    requires inside { g < 512 * pool.now.chunks }
    requires last { last ≡ digit (empty_to (pool_of pool.now) g) }
    ensures { result ≡ digit (empty_to (pool_of pool.now) (suc g)) }
{
    let part = pool.class_part(g);
    if part < 2 {
        return 0;
    }
    let first = u64::from(3 - part);
    let idle = idle_page(pool.bits, pool.words, pool.slots, g);
    idle & (last | first)
}

// The 64 pages of page-bit word k; `last` is that of the page before them.
fn empty_64(pool: &Records, k: usize, mut last: u64) -> Marks
    requires inside { k < 8 * pool.now.chunks }
    requires last { last ≡ digit (empty_to (pool_of pool.now) (64 * k)) }
    ensures { Marked (pool_of pool.now) k result.mask result.last }
{
    let mut mask: u64 = 0;
    for i in 0..64 {
        last = empty_page(pool, 64 * k + i, last);
        mask = (mask / 2) | (last << 63);
    }
    Marks { mask, last }
}

// The page bits without the empty runs, in the row `spare`; answers how many pages these have.
pub fn swept_bits(pool: &Records, spare: &mut [u64; 128]) -> usize
    requires { length spare.old ≡ 128 }
    ensures spare { Spare pool.now.chunks (pool_of pool.now) spare.new }
    ensures pages { result ≡ empty_from (pool_of pool.now) 0 (512 * pool.now.chunks) }
{
    let n = 8 * (pool.chunks as usize);
    let bits = pool.bits;
    let mut pages = 0;
    let mut last: u64 = 0;
    for k in 0..n {
        let x = empty_64(pool, k, last);
        spare[k] = bits[k] & !x.mask;
        pages += x.mask.count_ones() as usize;
        last = x.last;
    }
    pages
}

// Of the 64 pages of page-bit word k, those whose bit in w is 0 get the word 0.
fn free_words(words: &mut [u32], k: usize, w: u64)
    requires { (k < 128) × (64 * k + 64 ≤ length words.old) }
    ensures { WordsFreed words.old words.new k w 64 }
{
    for i in 0..64 {
        let x = words[64 * k + i];
        words[64 * k + i] = if (w >> i) % 2 == 1 { x } else { 0 };
    }
}

// The same, quicker where no bit of w is 1.
fn free_64(words: &mut [u32], k: usize, w: u64)
    requires { (k < 128) × (64 * k + 64 ≤ length words.old) }
    ensures { WordsFreed words.old words.new k w 64 }
{
    if w == 0 {
        words[64 * k..64 * k + 64].fill(0);
    } else {
        free_words(words, k, w);
    }
}

// The empty runs are given back; `spare` has the page bits without them.
pub fn give_back(c: u64, bits: &mut [u64], words: &mut [u32], slots: &[u64], spare: &[u64; 128])
    requires sound { admit_of c (lent bits.old words.old slots.now) ≡ 0 }
    requires spare { Spare c (lent bits.old words.old slots.now) spare.now }
    ensures { after bits.new words.new slots.now ≡ swept c (before bits.old words.old slots.now) }
{
    let n = 8 * (c as usize);
    for k in 0..n {
        let w = spare[k];
        if bits[k] != w {
            free_64(words, k, w);
            bits[k] = w;
        }
    }
}

// The work of a sweep, on records that are sound.
pub fn sweep_sound(c: u64, bits: &mut [u64], words: &mut [u32], slots: &[u64]) -> Swept
    requires { admit_of c (lent bits.old words.old slots.now) ≡ 0 }
    ensures { leaves result (after bits.new words.new slots.now) ≡ leaves (gained 0 (empty_from (before bits.old words.old slots.now) 0 (512 * c))) (swept c (before bits.old words.old slots.now)) }
{
    let pool = Records {
        chunks: c,
        bits,
        words,
        slots,
    };
    let mut spare = [0; 128];
    let pages = swept_bits(&pool, &mut spare);
    give_back(c, bits, words, slots, &spare);
    Swept {
        refusal: 0,
        pages: pages as u64,
    }
}
