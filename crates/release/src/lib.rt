// Release and block size: what starts at a place, and how it is given back.
#![tactic(auto)]

ghost use Rattle.std.specs.Prelude.{◌≡◌, ◌+◌, ◌*◌, ◌<◌, ◌≤◌, length};
ghost use Rattle.classes.specs.Classes.{size};
ghost use Rattle.records.specs.declared.Kind.TheVariants.{Class};
ghost use Rattle.records.specs.Kinds.{slots_of};
ghost use Rattle.records.specs.Shown.{pool_of};
ghost use Rattle.records.specs.Lent.{lent, before, after};
ghost use Rattle.records.specs.Calls.{admit_of, leaves};
ghost use Rattle.release.specs.Release.{slot_spot, spot, released, give_back, give, size_at};
ghost use Rattle.release.specs.Areas.{Leads, IsSpot};

use records::Records;
use refusals::{FREE_SLOT, NO_BLOCK};

// What starts at a place: nothing, with the refusal's number; a large run, by its first page and the pages behind it; a taken slot of a run.
#[derive(Clone, Copy)]
pub enum Spot {
    Nowhere(u64),
    Run(usize, usize),
    Slot(usize, usize, usize),
}

// What a place lies in: a large run, at its first byte, by its first page and the pages behind it; a run of a class, by its first page and
// the class.
#[derive(Clone, Copy)]
pub enum Area {
    Large(usize, usize),
    Class(usize, usize),
}

// The answer of block size; C reads it as it is.
#[repr(C)]
#[derive(Clone, Copy)]
pub struct Sized {
    pub refusal: u64,
    pub size: u64,
}

// Byte off of a run of class b that starts at page g and is cut into `count` slots of so many bytes.
fn slot_spot(slots: &[u64], g: usize, b: usize, off: usize, bytes: usize, count: usize) -> Spot
    requires low { g < 8192 }
    requires long { 512 * g + 512 ≤ 64 * length slots.now }
    requires class { b < 30 }
    requires size { bytes ≡ size b }
    requires count { count ≡ slots_of (Class b) }
    ensures { result ≡ slot_spot slots.now g b off }
{
    if off % bytes != 0 {
        return Spot::Nowhere(NO_BLOCK);
    }
    let s = off / bytes;
    if count <= s {
        return Spot::Nowhere(NO_BLOCK);
    }
    if bitrow::is_set(slots, 512 * g + s) {
        Spot::Slot(g, b, s)
    } else {
        Spot::Nowhere(FREE_SLOT)
    }
}

// The run that the place q lies in; a large run is told at its first byte only.
fn area_at(pool: &Records, q: u64) -> Option<Area>
    ensures { Leads pool.now.chunks (pool_of pool.now) q result }
{
    if 512 * pool.chunks <= q / 4096 {
        return None;
    }
    let at = q as usize;
    let home = pool.home_at(at / 4096);
    let g = home.first;
    match home.kind {
        records::Kind::Class(b) => Some(Area::Class(g, b)),
        records::Kind::Large(k) => if at % 4096 == 0 {
            Some(Area::Large(g, k))
        } else {
            None
        },
        _ => None,
    }
}

// What starts at the place q.
pub fn spot_at(pool: &Records, q: u64) -> Spot
    ensures { result ≡ spot pool.now.chunks (pool_of pool.now) q }
{
    match area_at(pool, q) {
        None => Spot::Nowhere(NO_BLOCK),
        Some(Area::Large(g, k)) => Spot::Run(g, k),
        Some(Area::Class(g, b)) => {
            let row = classes::class_row(b);
            let bytes = usize::from(row.size);
            let count = usize::from(row.slots);
            slot_spot(pool.slots, g, b, q as usize - 4096 * g, bytes, count)
        }
    }
}

// Gives back what starts at a place, and answers 0 or the refusal.
fn give_back(c: u64, bits: &mut [u64], words: &mut [u32], slots: &mut [u64], x: Spot) -> u64
    requires { (admit_of c (lent bits.old words.old slots.old) ≡ 0) × (IsSpot c (lent bits.old words.old slots.old) x) }
    ensures { leaves result (after bits.new words.new slots.new) ≡ leaves (released x) (give_back (before bits.old words.old slots.old) x) }
{
    match x {
        Spot::Nowhere(r) => r,
        Spot::Run(g, k) => {
            blocks::free_large(bits, words, slots, g, k);
            0
        }
        Spot::Slot(g, _, s) => {
            blocks::put_slot(bits, words, slots, g, s, false);
            0
        }
    }
}

// The work of a release, on records that are sound.
pub fn release_sound(c: u64, bits: &mut [u64], words: &mut [u32], slots: &mut [u64], q: u64) -> u64
    requires { admit_of c (lent bits.old words.old slots.old) ≡ 0 }
    ensures { leaves result (after bits.new words.new slots.new) ≡ give c (before bits.old words.old slots.old) q }
{
    let pool = Records {
        chunks: c,
        bits,
        words,
        slots,
    };
    let x = spot_at(&pool, q);
    give_back(c, bits, words, slots, x)
}

// The size that was given to the block at the place q, on records that are sound.
pub fn size_sound(pool: &Records, q: u64) -> Sized
    ensures { result ≡ size_at (spot pool.now.chunks (pool_of pool.now) q) }
{
    match spot_at(pool, q) {
        Spot::Nowhere(r) => Sized {
            refusal: r,
            size: 0,
        },
        Spot::Run(_, k) => Sized {
            refusal: 0,
            size: 4096 * (k as u64 + 1),
        },
        Spot::Slot(_, b, _) => {
            let row = classes::class_row(b);
            Sized {
                refusal: 0,
                size: u64::from(row.size),
            }
        }
    }
}
