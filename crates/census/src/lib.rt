// Census: place and size of each live block, written into a lent room.
#![tactic(auto)]

ghost use Rattle.std.specs.Prelude.{◌≡◌, [], ◌∷◌, ◌+◌, ◌*◌, ◌<◌, ◌≤◌, length};
ghost use Rattle.std.proofs.lemmas.List.Edits.{sets};
ghost use Rattle.records.specs.declared.Kind.TheVariants.{Class};
ghost use Rattle.records.specs.Kinds.{slots_of};
ghost use Rattle.records.specs.Shown.{pool_of};
ghost use Rattle.records.specs.Calls.{leaves};
ghost use Rattle.blocks.specs.Blocks.{block, page_blocks, live};
ghost use Rattle.census.specs.Census.{words_for, list};
ghost use Rattle.census.specs.Writes.{slot_blocks, NextTaken, Wrote};

use records::Records;
use refusals::SHORT_ROOM;

// The answer of a census; C reads it as it is.
#[repr(C)]
#[derive(Clone, Copy)]
pub struct Counted {
    pub refusal: u64,
    pub count: u64,
}

// Writes one block from word i of the room on, place before size. Answers the next word, as all writers here do.
fn write_block(room: &mut [u64], i: usize, place: usize, size: usize) -> usize
    requires { i + 2 ≤ length room.old }
    ensures { Wrote room.new room.old result i (block place size ∷ []) }
{
    room[i] = place as u64;
    room[i + 1] = size as u64;
    i + 2
}

// The first taken slot from slot s on, of the n slots of the run that starts at page g.
fn next_taken(slots: &[u64], g: usize, s: usize, n: usize) -> Option<usize>
    requires low { g < 8192 }
    requires long { 512 * g + 512 ≤ 64 * length slots.now }
    requires order { s ≤ n }
    requires few { n ≤ 512 }
    ensures { NextTaken slots.now g s n result }
{
    let r = bitrow::next_bit(slots, 512 * g + s, 512 * g + n, true) - 512 * g;
    if r < n { Some(r) } else { None }
}

// Writes the blocks of the run of class b that starts at page g, from taken slot to taken slot.
fn write_slots(slots: &[u64], g: usize, b: usize, room: &mut [u64], i: usize) -> usize
    requires low { g < 8192 }
    requires long { 512 * g + 512 ≤ 64 * length slots.now }
    requires class { b < 30 }
    requires room { i + 2 * length (slot_blocks slots.now g b 0 (slots_of (Class b))) ≤ length room.old }
    ensures { Wrote room.new room.old result i (slot_blocks slots.now g b 0 (slots_of (Class b))) }
{
    let row = classes::class_row(b);
    let size = usize::from(row.size);
    let n = usize::from(row.slots);
    let mut k = i;
    let mut from = 0;
    while let Some(s) = next_taken(slots, g, from, n) {
        k = write_block(room, k, 4096 * g + s * size, size);
        from = s + 1;
    }
    k
}

// Writes the blocks of the run that starts at page g.
fn write_page(pool: &Records, g: usize, room: &mut [u64], i: usize) -> usize
    requires inside { g < 512 * pool.now.chunks }
    requires room { i + 2 * length (page_blocks (pool_of pool.now) g) ≤ length room.old }
    ensures { Wrote room.new room.old result i (page_blocks (pool_of pool.now) g) }
{
    match pool.kind_at(g) {
        records::Kind::Class(b) => write_slots(pool.slots, g, b, room, i),
        records::Kind::Large(n) => write_block(room, i, 4096 * g, 4096 * (n + 1)),
        _ => i,
    }
}

// Writes all live blocks, page by page.
fn write_pages(pool: &Records, room: &mut [u64])
    requires { 2 * length (live pool.now.chunks (pool_of pool.now)) ≤ length room.old }
    ensures { room.new ≡ sets room.old 0 (words_for (live pool.now.chunks (pool_of pool.now))) }
{
    let mut i = 0;
    for g in 0..512 * pool.chunks as usize {
        i = write_page(pool, g, room, i);
    }
}

// The work of a census, on records that are sound. Half of the room is compared: twice the count might not fit a number.
pub fn census_sound(pool: &Records, room: &mut [u64]) -> Counted
    ensures { leaves result room.new ≡ list pool.now.chunks (pool_of pool.now) room.old }
{
    let n = totals::live_count(pool);
    if room.len() / 2 < n {
        return Counted {
            refusal: SHORT_ROOM,
            count: 0,
        };
    }
    write_pages(pool, room);
    Counted {
        refusal: 0,
        count: n as u64,
    }
}
