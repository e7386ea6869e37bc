// Totals: live blocks, bytes given and free pages, in one pass over the page words.
#![tactic(auto)]

ghost use Rattle.std.specs.Prelude.{◌≡◌, ◌*◌, ◌<◌, length};
ghost use Rattle.classes.specs.Classes.{rows};
ghost use Rattle.records.specs.Shown.{pool_of};
ghost use Rattle.blocks.specs.Blocks.{page_blocks, live};
ghost use Rattle.totals.specs.Totals.{amount_of, summed};

use records::Records;

// Some live blocks: how many, and the sum of the sizes given.
#[derive(Clone, Copy)]
pub struct Amount {
    pub blocks: usize,
    pub bytes: usize,
}

// The answer of totals; C reads it as it is.
#[repr(C)]
#[derive(Clone, Copy)]
pub struct Sums {
    pub refusal: u64,
    pub blocks: u64,
    pub bytes: u64,
    pub free: u64,
}

// The live blocks that begin in the run that starts at page g, on records that are sound; table has the rows of all classes.
fn page_amount(pool: &Records, table: &[classes::Row; 30], g: usize) -> Amount
    requires inside { g < 512 * pool.now.chunks }
    requires table { table.now ≡ rows }
    ensures { result ≡ amount_of (page_blocks (pool_of pool.now) g) }
{
    match pool.kind_at(g) {
        records::Kind::Class(b) => {
            let row = table[b];
            let n = bitrow::count_bits(pool.slots, 512 * g, usize::from(row.slots));
            Amount {
                blocks: n,
                bytes: n * usize::from(row.size),
            }
        }
        records::Kind::Large(n) => Amount {
            blocks: 1,
            bytes: 4096 * (n + 1),
        },
        _ => Amount {
            blocks: 0,
            bytes: 0,
        },
    }
}

// All live blocks. The class rows are copied once: a constant is written out anew at each read by index.
fn live_amount(pool: &Records) -> Amount
    ensures { result ≡ amount_of (live pool.now.chunks (pool_of pool.now)) }
{
    let table = classes::class_rows();
    let mut blocks = 0;
    let mut bytes = 0;
    for g in 0..512 * pool.chunks as usize {
        let t = page_amount(pool, &table, g);
        blocks += t.blocks;
        bytes += t.bytes;
    }
    Amount { blocks, bytes }
}

// The number of live blocks, on records that are sound.
pub fn live_count(pool: &Records) -> usize
    ensures { result ≡ length (live pool.now.chunks (pool_of pool.now)) }
{
    live_amount(pool).blocks
}

// The totals of records that are sound. There the page bit is 0 just at free pages.
pub fn totals_sound(pool: &Records) -> Sums
    ensures { result ≡ summed pool.now.chunks (pool_of pool.now) }
{
    let t = live_amount(pool);
    let n = 512 * pool.chunks as usize;
    let taken = bitrow::count_bits(pool.bits, 0, n);
    Sums {
        refusal: 0,
        blocks: t.blocks as u64,
        bytes: t.bytes as u64,
        free: (n - taken) as u64,
    }
}
