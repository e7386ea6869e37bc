// The 30 size classes, as constant rows, and the class that serves a request.
#![tactic(auto)]

ghost use Rattle.std.specs.Prelude.{◌≡◌, ◌<◌, ◌≤◌};
ghost use Rattle.classes.specs.Classes.{rows, row_at, class_for, ClassesMean};

mod table;

pub use table::class_table;

// One size class: slot size in bytes, slots in a run, pages in a run.
#[derive(Clone, Copy)]
pub struct Row {
    pub size: u16,
    pub slots: u16,
    pub pages: u16,
}

const ROWS: [Row; 30] = [
    Row {
        size: 8,
        slots: 512,
        pages: 1,
    },
    Row {
        size: 16,
        slots: 256,
        pages: 1,
    },
    Row {
        size: 24,
        slots: 170,
        pages: 1,
    },
    Row {
        size: 32,
        slots: 128,
        pages: 1,
    },
    Row {
        size: 40,
        slots: 102,
        pages: 1,
    },
    Row {
        size: 48,
        slots: 85,
        pages: 1,
    },
    Row {
        size: 56,
        slots: 73,
        pages: 1,
    },
    Row {
        size: 64,
        slots: 64,
        pages: 1,
    },
    Row {
        size: 80,
        slots: 51,
        pages: 1,
    },
    Row {
        size: 96,
        slots: 42,
        pages: 1,
    },
    Row {
        size: 112,
        slots: 36,
        pages: 1,
    },
    Row {
        size: 128,
        slots: 32,
        pages: 1,
    },
    Row {
        size: 160,
        slots: 25,
        pages: 1,
    },
    Row {
        size: 192,
        slots: 21,
        pages: 1,
    },
    Row {
        size: 224,
        slots: 18,
        pages: 1,
    },
    Row {
        size: 256,
        slots: 16,
        pages: 1,
    },
    Row {
        size: 320,
        slots: 64,
        pages: 5,
    },
    Row {
        size: 384,
        slots: 32,
        pages: 3,
    },
    Row {
        size: 448,
        slots: 9,
        pages: 1,
    },
    Row {
        size: 512,
        slots: 8,
        pages: 1,
    },
    Row {
        size: 640,
        slots: 32,
        pages: 5,
    },
    Row {
        size: 768,
        slots: 16,
        pages: 3,
    },
    Row {
        size: 896,
        slots: 9,
        pages: 2,
    },
    Row {
        size: 1024,
        slots: 8,
        pages: 2,
    },
    Row {
        size: 1280,
        slots: 16,
        pages: 5,
    },
    Row {
        size: 1536,
        slots: 8,
        pages: 3,
    },
    Row {
        size: 1792,
        slots: 16,
        pages: 7,
    },
    Row {
        size: 2048,
        slots: 8,
        pages: 4,
    },
    Row {
        size: 2560,
        slots: 8,
        pages: 5,
    },
    Row {
        size: 3072,
        slots: 4,
        pages: 3,
    },
];

// All rows, for a caller that reads many: a constant is written out anew at each read by index.
pub fn class_rows() -> [Row; 30]
    ensures { result ≡ rows }
{
    ROWS
}

// The row of class b.
pub fn class_row(b: usize) -> Row
    requires { b < 30 }
    ensures { result ≡ row_at b }
{
    ROWS[b]
}

// The class that serves a request of this size, by PHP 7's calculation: a class for every 8 bytes up to 64, then four to each doubling. The
// three highest bits of the last byte's offset tell which of the four, and how many bits are below them tells which doubling.
pub fn class_of(size: usize) -> usize
    requires { size ≤ 3072 }
    ensures { result ≡ class_for size }
{
    if size == 0 {
        return 0;
    }
    let last = size - 1;
    if size <= 64 {
        return last / 8;
    }
    let length = 64 - last.leading_zeros() as usize;
    let low = length - 3;
    (last >> low) + 4 * (low - 3)
}

// The rows and the class of a request are what RULES 2 says of them.
pub fn classes_mean() -> bool
    ensures { ClassesMean }
{
    true
}
