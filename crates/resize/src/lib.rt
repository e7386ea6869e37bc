// Resize: a block stays where it lies, with another size, or is moved.
#![tactic(auto)]

ghost use Rattle.std.specs.Prelude.{◌≡◌, suc, ◌+◌, ◌*◌, ◌%◌, ◌<◌, ◌≤◌, length};
ghost use Rattle.records.specs.Lent.{lent, before, after};
ghost use Rattle.records.specs.Calls.{admit_of, leaves};
ghost use Rattle.records.specs.Kinds.{zeros};
ghost use Rattle.blocks.specs.Blocks.{IsLarge};
ghost use Rattle.blocks.specs.Stores.{put_run};
ghost use Rattle.reserve.specs.Plans.{PagesFree};
ghost use Rattle.release.specs.Release.{spot};
ghost use Rattle.resize.specs.Resize.{can_grow, fit_pages, fit_run, fit_slot, change, recut, refused, kept, moved, moving, resize};
ghost use Rattle.resize.specs.Settle.{ChunkIn, SpotLow, settled, Tells};

use records::Records;
use refusals::TOO_BIG;

// What becomes of a block: it is refused with a number; stays as it is, of so many bytes; is a large run at page g that gets j pages behind
// its first in place of k; or, of so many bytes, is moved.
#[derive(Clone, Copy)]
pub enum Change {
    Refuse(u64),
    Stay(u64),
    Recut(usize, usize, usize),
    Move(u64),
}

// The answer: how is 1 for kept, 2 for moved; C reads it as it is.
#[repr(C)]
#[derive(Clone, Copy)]
pub struct Resized {
    pub refusal: u64,
    pub place: u64,
    pub size: u64,
    pub how: u64,
    pub copy: u64,
}

// Whether a resize is over: it is, with an answer; or the block, of so many bytes, is still to be moved.
#[derive(Clone, Copy)]
pub enum Settled {
    Over(Resized),
    Moving(u64),
}

// Whether the large run at page g, with k pages behind its first, has room for j: the pages right behind it, in its chunk, are free.
fn can_grow(bits: &[u64], g: usize, k: usize, j: usize) -> bool
    requires chunk { ChunkIn g (length bits.now) }
    requires more { k ≤ j }
    requires few { j < 511 }
    ensures { result ≡ can_grow bits.now g k j }
{
    if 512 < g % 512 + j + 1 {
        return false;
    }
    let end = g + j + 1;
    bitrow::next_bit(bits, g + k + 1, end, true) == end
}

// Such a run, for which j pages behind its first are enough.
fn fit_pages(bits: &[u64], g: usize, k: usize, j: usize) -> Change
    requires chunk { ChunkIn g (length bits.now) }
    requires inside { g % 512 + suc k ≤ 512 }
    requires few { j < 511 }
    ensures { result ≡ fit_pages bits.now g k j }
{
    if j == k {
        Change::Stay(4096 * (k as u64 + 1))
    } else if j < k || can_grow(bits, g, k, j) {
        Change::Recut(g, k, j)
    } else {
        Change::Move(4096 * (k as u64 + 1))
    }
}

// n bytes for a large run.
fn fit_run(bits: &[u64], g: usize, k: usize, n: u64) -> Change
    requires chunk { ChunkIn g (length bits.now) }
    requires inside { g % 512 + suc k ≤ 512 }
    requires most { n ≤ 2093056 }
    ensures { result ≡ fit_run bits.now g k n }
{
    if n <= 3072 {
        return Change::Move(4096 * (k as u64 + 1));
    }
    let m = reserve::pages_for(n);
    fit_pages(bits, g, k, m - 1)
}

// n bytes for a slot of class b.
fn fit_slot(b: usize, n: u64) -> Change
    requires { b < 30 }
    ensures { result ≡ fit_slot b n }
{
    let row = classes::class_row(b);
    let bytes = u64::from(row.size);
    if n <= 3072 && classes::class_of(n as usize) == b {
        Change::Stay(bytes)
    } else {
        Change::Move(bytes)
    }
}

// What becomes of what starts at a place, for n bytes.
fn change_of(bits: &[u64], x: release::Spot, n: u64) -> Change
    requires { SpotLow (length bits.now) x }
    ensures { result ≡ change bits.now x n }
{
    match x {
        release::Spot::Nowhere(r) => Change::Refuse(r),
        release::Spot::Run(g, k) => if 2093056 < n {
            Change::Refuse(TOO_BIG)
        } else {
            fit_run(bits, g, k, n)
        },
        release::Spot::Slot(_, b, _) => if 2093056 < n {
            Change::Refuse(TOO_BIG)
        } else {
            fit_slot(b, n)
        },
    }
}

// Refused: nothing is given.
pub fn refused(r: u64) -> Resized
    ensures { result ≡ refused r }
{
    Resized {
        refusal: r,
        place: 0,
        size: 0,
        how: 0,
        copy: 0,
    }
}

// The block at the place q is kept, with z bytes.
fn kept(q: u64, z: u64) -> Resized
    ensures { result ≡ kept q z }
{
    Resized {
        refusal: 0,
        place: q,
        size: z,
        how: 1,
        copy: 0,
    }
}

// What was reserved for n bytes, in place of a block of z bytes.
fn moved(r: reserve::Reserved, z: u64, n: u64) -> Resized
    ensures { result ≡ moved r z n }
{
    Resized {
        refusal: 0,
        place: r.place,
        size: r.size,
        how: 2,
        copy: z.min(n),
    }
}

// The large run at page g, with k pages behind its first, gets j.
fn recut_run(
    c: u64,
    bits: &mut [u64],
    words: &mut [u32],
    slots: &[u64],
    g: usize,
    k: usize,
    j: usize,
)
    requires sound { admit_of c (lent bits.old words.old slots.now) ≡ 0 }
    requires run { IsLarge c (lent bits.old words.old slots.now) g k }
    requires pages { PagesFree c (put_run 0 (lent bits.old words.old slots.now) g (zeros (suc k))) g (suc j) }
    ensures { after bits.new words.new slots.now ≡ recut (before bits.old words.old slots.now) g k j }
{
    blocks::free_large(bits, words, slots, g, k);
    blocks::put_large(bits, words, slots, g, j);
}

// Of a resize of x, which starts at the place q, to n bytes: all but a move.
pub fn settle(
    c: u64,
    bits: &mut [u64],
    words: &mut [u32],
    slots: &[u64],
    q: u64,
    n: u64,
    x: release::Spot,
) -> Settled
    requires sound { admit_of c (lent bits.old words.old slots.now) ≡ 0 }
    requires spot { x ≡ spot c (lent bits.old words.old slots.now) q }
    ensures left { after bits.new words.new slots.now ≡ settled (before bits.old words.old slots.now) (change bits.old x n) }
    ensures told { Tells c (before bits.old words.old slots.now) q n (change bits.old x n) result }
{
    match change_of(bits, x, n) {
        Change::Refuse(r) => Settled::Over(refused(r)),
        Change::Stay(z) => Settled::Over(kept(q, z)),
        Change::Recut(g, k, j) => {
            recut_run(c, bits, words, slots, g, k, j);
            Settled::Over(kept(q, 4096 * (j as u64 + 1)))
        }
        Change::Move(z) => Settled::Moving(z),
    }
}

// Moves the block of z bytes at the place q, for n bytes: the new one is reserved while the old one is live.
fn move_sound(
    c: u64,
    bits: &mut [u64],
    words: &mut [u32],
    slots: &mut [u64],
    q: u64,
    n: u64,
    z: u64,
) -> Resized
    requires { admit_of c (lent bits.old words.old slots.old) ≡ 0 }
    ensures { leaves result (after bits.new words.new slots.new) ≡ moving c (before bits.old words.old slots.old) q z n }
{
    let r = reserve::reserve_sound(c, bits, words, slots, n);
    if r.refusal != 0 {
        return refused(r.refusal);
    }
    release::release_sound(c, bits, words, slots, q);
    moved(r, z, n)
}

// The work of a resize, on records that are sound.
pub fn resize_sound(
    c: u64,
    bits: &mut [u64],
    words: &mut [u32],
    slots: &mut [u64],
    q: u64,
    n: u64,
) -> Resized
    requires { admit_of c (lent bits.old words.old slots.old) ≡ 0 }
    ensures { leaves result (after bits.new words.new slots.new) ≡ resize c (before bits.old words.old slots.old) q n }
{
    let pool = Records {
        chunks: c,
        bits,
        words,
        slots,
    };
    let x = release::spot_at(&pool, q);
    match settle(c, bits, words, slots, q, n, x) {
        Settled::Over(r) => r,
        Settled::Moving(z) => move_sound(c, bits, words, slots, q, n, z),
    }
}
