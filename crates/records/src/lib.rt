// The records of a pool: what page words mean, how they are written, and what sound records promise. Definitions in specs/, laws in proofs/.
#![tactic(auto)]

ghost use Rattle.std.specs.Prelude.{◌≡◌, ◌+◌, ◌*◌, ◌≤◌, ◌<◌, ◌^◌, eqb, length, slice_index, true};
ghost use Rattle.records.specs.declared.Kind.TheVariants.{Class};
ghost use Rattle.records.specs.Kinds.{edge_word, large_word, class_word, inner_word, is_run_of, in_class, ClassPart};
ghost use Rattle.records.specs.Pool.{kind_at};
ghost use Rattle.records.specs.Lent.{lent};
ghost use Rattle.records.specs.Slots.{slots_clear};
ghost use Rattle.records.specs.Calls.{shaped, admit_of};
ghost use Rattle.records.specs.Runs.{Lies, SoundRecords};

// What a page is: page 0 of a chunk; free; anything that no sound records have; the first page of a large run that has so many pages behind
// it; the first page of a run of a class; another page of a run, by its word.
#[derive(Clone, Copy)]
pub enum Kind {
    Edge,
    Free,
    Damaged,
    Large(usize),
    Class(usize),
    Inner(u32),
}

// The page that tells what a page lies in, and what it is.
#[derive(Clone, Copy)]
pub struct Home {
    pub first: usize,
    pub kind: Kind,
}

// A class run: its first page, and its class.
#[derive(Clone, Copy)]
pub struct ClassRun {
    pub first: usize,
    pub class: usize,
}

// ---- how pages are written

// The word of page 0 of a chunk.
pub fn edge_word() -> u32
    ensures { result ≡ edge_word }
{
    0x40000001
}

// The word of the first page of a large run of n pages.
pub fn large_word(n: usize) -> u32
    requires { n ≤ 511 }
    ensures { result ≡ large_word n }
{
    0x40000000 + n as u32
}

// The word of the first page of a run of class b.
pub fn class_word(b: usize) -> u32
    requires { b < 30 }
    ensures { result ≡ class_word b }
{
    0x80000000 + b as u32
}

// The word of the page at offset k of a run of class b.
pub fn inner_word(b: usize, k: usize) -> u32
    requires { (b < 30) × (k < 8) }
    ensures { result ≡ inner_word b k }
{
    0xC0000000 + 65536 * (k as u32) + b as u32
}

// ---- what they mean

// The records of a pool of so many chunks, lent to be read, which are sound. There a word means one thing only.
#[derive(Clone, Copy)]
pub struct Records<'a> {
    pub chunks: u64,
    pub bits: &'a [u64],
    pub words: &'a [u32],
    pub slots: &'a [u64],
    pub ghost sound: { admit_of chunks (lent bits.now words.now slots.now) ≡ 0 },
}

impl Records<'_> {
    ghost use Rattle.records.specs.Shown.{pool_of};

    // The word of page g.
    fn word(&self, g: usize) -> u32
        requires { g < 512 * self.now.chunks }
        ensures value { result ≡ slice_index self.now.words.now g }
        ensures low { result < 2 ^ 32 }
    {
        self.words[g]
    }

    // What page g is. The page bit tells a free page from one inside a large run. The words at which nothing begins come first: where a
    // caller takes them alike, that is one comparison.
    pub fn kind_at(&self, g: usize) -> Kind
        requires { g < 512 * self.now.chunks }
        ensures { result ≡ kind_at (pool_of self.now) g }
    {
        let w = self.word(g);
        if 0xC0000000 <= w {
            return Kind::Inner(w);
        }
        if w < 0x40000001 {
            if bitrow::is_set(self.bits, g) {
                return Kind::Inner(0);
            }
            return Kind::Free;
        }
        if 0x80000000 <= w {
            return Kind::Class((w - 0x80000000) as usize);
        }
        if g % 512 == 0 {
            return Kind::Edge;
        }
        Kind::Large((w - 0x40000001) as usize)
    }

    // Whether a run of class b starts at page g: one comparison, for searches that go over all pages.
    pub fn is_run_of(&self, g: usize, b: usize) -> bool
        requires inside { g < 512 * self.now.chunks }
        requires class { b < 30 }
        ensures { result ≡ is_run_of b (kind_at (pool_of self.now) g) }
    {
        self.word(g) == class_word(b)
    }

    // Whether page g lies in a class run.
    pub fn in_class(&self, g: usize) -> bool
        requires { g < 512 * self.now.chunks }
        ensures { result ≡ in_class (kind_at (pool_of self.now) g) }
    {
        0x80000000 <= self.word(g)
    }

    // The class run in which page g lies: a page's word has the way to the run's first page, which is 0 there, and the class.
    pub fn class_run(&self, g: usize) -> ClassRun
        requires inside { g < 512 * self.now.chunks }
        requires class { in_class (kind_at (pool_of self.now) g) ≡ true }
        ensures { Lies (pool_of self.now) g result.first (Class result.class) }
    {
        let w = self.word(g);
        let k = ((w / 65536) % 16384) as usize;
        ClassRun {
            first: g - k,
            class: (w % 65536) as usize,
        }
    }

    // What page g lies in. A page of a class run is told by the run's first page; any other page by itself.
    pub fn home_at(&self, g: usize) -> Home
        requires { g < 512 * self.now.chunks }
        ensures { Lies (pool_of self.now) g result.first result.kind }
    {
        if self.in_class(g) {
            let r = self.class_run(g);
            return Home {
                first: r.first,
                kind: Kind::Class(r.class),
            };
        }
        Home {
            first: g,
            kind: self.kind_at(g),
        }
    }

    // Which part of a class run page g is: 2 its first page, 3 one behind it, less where it is none. For passes over all pages that go by
    // this alone, without a branch.
    pub fn class_part(&self, g: usize) -> u32
        requires { g < 512 * self.now.chunks }
        ensures { ClassPart result (kind_at (pool_of self.now) g) }
    {
        self.word(g) / 0x40000000
    }
}

// 0 when page g has no slot bit: its eight slot words at once, without a branch.
pub fn any_slot(slots: &[u64], g: usize) -> u64
    requires { (g < 8192) × (8 * g + 8 ≤ length slots.now) }
    ensures { eqb result 0 ≡ slots_clear slots.now g 0 }
{
    slots[8 * g..8 * g + 8].iter().fold(0, |all, w| all | w)
}

// ---- refusal 1, and what sound records promise

// Whether there is a pool of c chunks with so many page-bit words, page words and slot-bit words.
pub fn is_shaped(c: u64, nbits: usize, nwords: usize, nslots: usize) -> bool
    ensures { result ≡ shaped c nbits nwords nslots }
{
    (1..=16).contains(&c)
        && nbits as u64 == 8 * c
        && nwords as u64 == 512 * c
        && nslots as u64 == 4096 * c
}

// The runs of sound records lie apart, inside their chunks and off page 0, and fresh records are sound.
pub fn sound_records() -> bool
    ensures { SoundRecords }
{
    true
}
