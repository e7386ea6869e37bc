// Next: the live block with the lowest place at or above a place.
#![tactic(auto)]

ghost use Rattle.std.specs.Prelude.{◌≡◌, ◌*◌, ◌/◌, ◌<◌};
ghost use Rattle.classes.specs.Classes.{size};
ghost use Rattle.records.specs.Shown.{pool_of};
ghost use Rattle.blocks.specs.Blocks.{live};
ghost use Rattle.next.specs.Next.{first_from, answer_of};
ghost use Rattle.next.specs.Walk.{Least, Started};

use records::Records;

// A live block that was found.
#[derive(Clone, Copy)]
pub struct Found {
    pub place: u64,
    pub size: u64,
}

// The answer of next; C reads it as it is.
#[repr(C)]
#[derive(Clone, Copy)]
pub struct Next {
    pub refusal: u64,
    pub place: u64,
    pub size: u64,
}

// Where the search starts: a page, and a slot of the run that starts there.
#[derive(Clone, Copy)]
pub struct Start {
    pub page: usize,
    pub slot: usize,
}

// The first slot of a run of class b that starts at or above byte off of the run.
fn slot_from(b: usize, off: usize) -> usize
    requires { (b < 30) × (off < 65536) }
    ensures { Least (size b) off result }
{
    let row = classes::class_row(b);
    let z = usize::from(row.size);
    (off + (z - 1)) / z
}

// The page and slot at which the search for the place q starts. Any page but those of class runs begins at most one block, at its first byte.
fn start_of(pool: &Records, q: usize) -> Start
    requires { q / 4096 < 512 * pool.now.chunks }
    ensures { Started pool.now.chunks (pool_of pool.now) q result.page result.slot }
{
    let g = q / 4096;
    let home = pool.home_at(g);
    let f = home.first;
    match home.kind {
        records::Kind::Class(b) => Start {
            page: f,
            slot: slot_from(b, q - 4096 * f),
        },
        records::Kind::Edge => Start {
            page: g + 1,
            slot: 0,
        },
        _ if q % 4096 == 0 => Start { page: g, slot: 0 },
        _ => Start {
            page: g + 1,
            slot: 0,
        },
    }
}

// The search, on records that are sound: chunks, pages and slots from the place on, three walks in one function, all left by one labelled
// break at the first live block. Free pages and free slots are passed a word at a time, so no `for` goes from one to the next.
pub fn next_sound(pool: &Records, q: u64) -> Option<Found>
    ensures { result ≡ first_from q (live pool.now.chunks (pool_of pool.now)) }
{
    if 512 * pool.chunks <= q / 4096 {
        return None;
    }
    let start = start_of(pool, q as usize);
    let chunks = pool.chunks as usize;
    let mut chunk = q as usize / 4096 / 512;
    let mut page = start.page - 512 * chunk;
    let mut slot = start.slot;
    let found = 'search: loop {
        if chunk == chunks {
            break 'search None;
        }
        while page < 512 {
            let g = 512 * chunk + page;
            match pool.kind_at(g) {
                records::Kind::Large(k) => {
                    break 'search Some(Found {
                        place: (4096 * g) as u64,
                        size: (4096 * (k + 1)) as u64,
                    });
                }
                records::Kind::Class(b) => {
                    let row = classes::class_row(b);
                    let n = usize::from(row.slots);
                    let z = usize::from(row.size);
                    while slot < n {
                        slot = bitrow::next_bit(pool.slots, 512 * g + slot, 512 * g + n, true)
                            - 512 * g;
                        if slot < n {
                            break 'search Some(Found {
                                place: (4096 * g + slot * z) as u64,
                                size: z as u64,
                            });
                        }
                    }
                }
                _ => {}
            }
            page = bitrow::next_bit(pool.bits, g + 1, 512 * chunk + 512, true) - 512 * chunk;
            slot = 0;
        }
        chunk += 1;
        page = 1;
        slot = 0;
    };
    found
}

// What is answered: none has place 0 and size 0.
pub fn answer_of(x: Option<Found>) -> Next
    ensures { result ≡ answer_of x }
{
    match x {
        Some(Found { place, size }) => Next {
            refusal: 0,
            place,
            size,
        },
        None => Next {
            refusal: 0,
            place: 0,
            size: 0,
        },
    }
}
