// The record check, in one pass over the pages: refusals 1 and 2 of each call on an existing pool.
#![tactic(auto)]

ghost use Rattle.std.specs.Prelude.{◌≡◌, true, false, [], ◌+◌, ◌*◌, ◌%◌, ◌<◌, ◌≤◌, eqb, length, get_or, MatchOption};
ghost use Rattle.records.specs.declared.Kind.TheVariants.{Class};
ghost use Rattle.records.specs.Kinds.{slots_of};
ghost use Rattle.records.specs.Lent.{before, lent};
ghost use Rattle.records.specs.Sound.{sound_from};
ghost use Rattle.records.specs.Slots.{slots_clear};
ghost use Rattle.records.specs.Calls.{admit_of};
ghost use Rattle.admit.specs.Masks.{mask_table};
ghost use Rattle.admit.specs.Pages.{next_word, Behinds, Ready, Stuck, Paged, Wrong, Checked, Inside};

use refusals::{DAMAGED, SHAPE};

mod masks;

// The pages of a run of each class behind its first, from the class rows.
fn behind_table() -> [u32; 30]
    ensures { Behinds result }
{
    let rows = classes::class_rows();
    let mut behinds = [0; 30];
    for (k, row) in rows.iter().enumerate() {
        behinds[k] = u32::from(row.pages - 1);
    }
    behinds
}

// 0 when page g has no slot bit that names no slot of class b.
fn stray_slot(slots: &[u64], g: usize, masks: &[u64; 240], b: usize) -> u64
    requires low { g < 8192 }
    requires long { 8 * g + 8 ≤ length slots.now }
    requires class { b < 30 }
    requires table { masks.now ≡ mask_table }
    ensures { eqb result 0 ≡ slots_clear slots.now g (slots_of (Class b)) }
{
    let mut acc = 0;
    for j in 0..8 {
        acc |= slots[8 * g + j] & masks[8 * b + j];
    }
    acc
}

// Where the check stands between two pages: the pages still to come in the run, and the word of the next.
#[derive(Clone, Copy)]
pub struct Progress {
    pub left: u32,
    pub due: u32,
}

// The same behind a page, and before it the page's stray slot bits. `page` computes the fields in this order: if the pages to come were
// computed before the word, a page inside a large run would take a tenth more time.
#[derive(Clone, Copy)]
pub struct PageStep {
    pub stray: u64,
    pub due: u32,
    pub left: u32,
}

// The word of the next page inside a run: large runs have zeros there, class runs count up.
fn next_word(due: u32) -> u32
    requires { due + 65536 < 4294967296 }
    ensures { result ≡ next_word due }
{
    if due == 0 { 0 } else { due + 65536 }
}

// One page that is not page 0 of its chunk: how it goes on, if it does. Stray slot bits are only gathered, so that a page costs no branch for
// them. The state comes and goes as two numbers: a `Progress` is copied as one word, which each page would have to take apart.
fn page(
    w: u32,
    taken: bool,
    left: u32,
    due: u32,
    slots: &[u64],
    g: usize,
    masks: &[u64; 240],
    behinds: &[u32; 30],
) -> Option<PageStep>
    requires low { g < 8192 }
    requires long { 8 * g + 8 ≤ length slots.now }
    requires table { masks.now ≡ mask_table }
    requires behind { Behinds behinds.now }
    requires ready { Ready left due }
    ensures { MatchOption result (Stuck left due w taken) (λ s. Paged slots.now g left due w taken s.left s.due s.stray) }
{
    if left != 0 {
        if !taken || w != due {
            return None;
        }
        return Some(PageStep {
            stray: records::any_slot(slots, g),
            due: next_word(due),
            left: left - 1,
        });
    }
    if (0x80000000..0x8000001E).contains(&w) {
        if !taken {
            return None;
        }
        let b = (w - 0x80000000) as usize;
        return Some(PageStep {
            stray: stray_slot(slots, g, masks, b),
            due: w + 0x40010000,
            left: behinds[b],
        });
    }
    if !taken {
        if w != 0 {
            return None;
        }
        return Some(PageStep {
            stray: records::any_slot(slots, g),
            due: 0,
            left: 0,
        });
    }
    if (0x40000001..0x40000200).contains(&w) {
        return Some(PageStep {
            stray: records::any_slot(slots, g),
            due: 0,
            left: w - 0x40000001,
        });
    }
    None
}

// Page 0 of a chunk, where page-bit word i begins one, has its own word, and no run comes into it. Then it goes on like a large run of one page.
fn edge_ok(i: usize, left: u32, w: u32) -> bool
    ensures yes { result ≡ true → i % 8 ≡ 0 → (left ≡ 0) × (w ≡ 0x40000001) }
    ensures no { result ≡ false → (i % 8 ≡ 0) × (left ≡ 0 → w ≡ 0x40000001 → ⊥) }
{
    i % 8 != 0 || (left == 0 && w == 0x40000001)
}

// The 64 pages of page-bit word i.
fn mixed_64(
    bits: &[u64],
    words: &[u32],
    slots: &[u64],
    i: usize,
    at: Progress,
    masks: &[u64; 240],
    behinds: &[u32; 30],
) -> Option<Progress>
    requires inside { Inside i (lent bits.now words.now slots.now) masks.now behinds.now }
    requires ready { Ready at.left at.due }
    ensures { MatchOption result (Wrong (before bits.now words.now slots.now) i at.left at.due) (λ s. Checked (before bits.now words.now slots.now) i at.left at.due s.left s.due) }
{
    if !edge_ok(i, at.left, words[64 * i]) {
        return None;
    }
    let Progress { mut left, mut due } = at;
    let mut bw = bits[i];
    let mut acc = 0;
    for p in 0..64 {
        let g = 64 * i + p;
        let s = page(words[g], bw % 2 == 1, left, due, slots, g, masks, behinds)?;
        acc |= s.stray;
        left = s.left;
        due = s.due;
        bw /= 2;
    }
    if acc == 0 {
        Some(Progress { left, due })
    } else {
        None
    }
}

// Whether the 64 pages of page-bit word i, between runs, where the word is 0 and no chunk begins, are all free, with no slot bit.
fn free_64(bits: &[u64], words: &[u32], slots: &[u64], i: usize) -> bool
    requires low { i < 128 }
    requires mid { i % 8 ≡ 0 → ⊥ }
    requires zero { get_or bits.now i 0 ≡ 0 }
    requires word { 64 * i + 64 ≤ length words.now }
    requires slot { 512 * i + 512 ≤ length slots.now }
    ensures yes { result ≡ true → Checked (before bits.now words.now slots.now) i 0 0 0 0 }
    ensures no { result ≡ false → Wrong (before bits.now words.now slots.now) i 0 0 }
{
    let mut acc = 0;
    for p in 0..64 {
        let g = 64 * i + p;
        let x = records::any_slot(slots, g);
        let w = u64::from(words[g]);
        acc |= x | w;
    }
    acc == 0
}

// The 64 pages of page-bit word i. Free ones take the shorter way, which has no branch a page.
fn pages_64(
    bits: &[u64],
    words: &[u32],
    slots: &[u64],
    i: usize,
    at: Progress,
    masks: &[u64; 240],
    behinds: &[u32; 30],
) -> Option<Progress>
    requires inside { Inside i (lent bits.now words.now slots.now) masks.now behinds.now }
    requires ready { Ready at.left at.due }
    ensures { MatchOption result (Wrong (before bits.now words.now slots.now) i at.left at.due) (λ s. Checked (before bits.now words.now slots.now) i at.left at.due s.left s.due) }
{
    if at.left == 0 && i % 8 != 0 && bits[i] == 0 {
        if free_64(bits, words, slots, i) {
            Some(Progress { left: 0, due: 0 })
        } else {
            None
        }
    } else {
        mixed_64(bits, words, slots, i, at, masks, behinds)
    }
}

// The pages of n page-bit words.
fn pages_sound(bits: &[u64], words: &[u32], slots: &[u64], n: usize) -> bool
    requires low { n ≤ 128 }
    requires bit { n ≤ length bits.now }
    requires word { 64 * n ≤ length words.now }
    requires slot { 512 * n ≤ length slots.now }
    ensures { result ≡ sound_from (before bits.now words.now slots.now) [] 0 (64 * n) }
{
    let masks = masks::mask_table();
    let behinds = behind_table();
    let mut at = Progress { left: 0, due: 0 };
    for i in 0..n {
        match pages_64(bits, words, slots, i, at, &masks, &behinds) {
            Some(next) => at = next,
            None => return false,
        }
    }
    at.left == 0
}

// The check of lent records (RULES 4.2, 6.1): 1 no such pool, 2 damaged, 0 sound.
pub fn admit(c: u64, bits: &[u64], words: &[u32], slots: &[u64]) -> u64
    ensures { result ≡ admit_of c (before bits.now words.now slots.now) }
{
    if !records::is_shaped(c, bits.len(), words.len(), slots.len()) {
        return SHAPE;
    }
    if !pages_sound(bits, words, slots, 8 * (c as usize)) {
        return DAMAGED;
    }
    0
}
