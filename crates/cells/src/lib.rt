// What each page of a pool shows in a drawing.
#![tactic(auto)]

ghost use Rattle.std.specs.Prelude.{◌≡◌, ◌+◌, ◌*◌, ◌≤◌, ◌<◌, length};
ghost use Rattle.bitrow.specs.Row.{count_bits};
ghost use Rattle.classes.specs.Classes.{slots};
ghost use Rattle.records.specs.Shown.{pool_of};
ghost use Rattle.cells.specs.Cells.{cell, tenths, mark_of, run_cell, goes_on, cell_at};
ghost use Rattle.cells.specs.Means.{CellsMean};

use records::Records;

// What a page shows: its character, the letter of its fill, 1 where it goes on with the cell before, how full it is in tenths, its
// label, 0 for none. The drawing reckons with both numbers: `joined` moves and widens a box, and the label is written where it is not 0.
#[derive(Clone, Copy)]
pub struct Cell {
    pub mark: u8,
    pub fill: u8,
    pub joined: u64,
    pub level: u64,
    pub label: u64,
}

// n of s slots in tenths.
fn level_of(n: usize, s: usize) -> u64
    requires order { n ≤ s }
    requires some { 0 < s }
    requires few { s ≤ 512 }
    ensures { (result ≡ tenths n s) × (result ≤ 10) }
{
    (10 * n / s) as u64
}

// The tenths as one character.
fn level_mark(t: u64) -> u8
    ensures { result ≡ mark_of t }
{
    if t < 10 { b'0' + t as u8 } else { b'X' }
}

// A page that neither goes on with the cell before nor has slots.
fn plain_cell(mark: u8, fill: u8, label: u64) -> Cell
    ensures { (result ≡ cell mark fill 0 0 label) × (result.joined ≤ 1) × (result.level ≤ 10) }
{
    Cell {
        mark,
        fill,
        joined: 0,
        level: 0,
        label,
    }
}

// The first page of a run of class b, at page g.
fn run_cell(taken: &[u64], g: usize, b: usize) -> Cell
    requires class { b < 30 }
    requires long { 512 * g + 512 ≤ 64 * length taken.now }
    requires low { g < 8192 }
    ensures { (result ≡ run_cell b (tenths (count_bits taken.now (512 * g) (slots b)) (slots b)))
        × (result.joined ≤ 1) × (result.level ≤ 10) }
{
    let row = classes::class_row(b);
    let s = usize::from(row.slots);
    let n = bitrow::count_bits(taken, 512 * g, s);
    let t = level_of(n, s);
    Cell {
        mark: level_mark(t),
        fill: b'c',
        joined: 0,
        level: t,
        label: u64::from(row.size),
    }
}

// A page behind a run's first.
fn goes_on(last: Cell) -> Cell
    ensures { result ≡ goes_on last }
{
    Cell {
        mark: b'=',
        fill: last.fill,
        joined: 1,
        level: last.level,
        label: 0,
    }
}

// What page g shows, behind the cell `last`, on records that are sound.
pub fn page_cell(pool: &Records, g: usize, last: Cell) -> Cell
    requires inside { g < 512 * pool.now.chunks }
    requires level { last.level ≤ 10 }
    ensures { (result ≡ cell_at (pool_of pool.now) last g)
        × (result.joined ≤ 1) × (result.level ≤ 10) }
{
    match pool.kind_at(g) {
        records::Kind::Edge => plain_cell(b'@', b'e', 0),
        records::Kind::Free => plain_cell(b'.', b'f', 0),
        records::Kind::Damaged => plain_cell(b'?', b'f', 0),
        records::Kind::Large(n) => plain_cell(b'L', b'l', (n + 1) as u64),
        records::Kind::Class(b) => run_cell(pool.slots, g, b),
        records::Kind::Inner(_) => goes_on(last),
    }
}

// What a run's mark tells.
pub fn cells_mean() -> bool
    ensures { CellsMean }
{
    true
}
