// Finding pages: the gaps between the taken pages of a chunk, and the gap that n pages go to. The row of page bits is any row that is long
// enough: nothing here leans on sound records.
#![tactic(auto)]

ghost use Rattle.std.specs.Prelude.{◌≡◌, ◌+◌, ◌*◌, ◌≤◌, ◌<◌, length, get_or};
ghost use Rattle.bitrow.specs.Row.{digit, next_bit};
ghost use Rattle.gaps.specs.Gaps.{better, shortest, gaps_of, find_pages, Edges, at_edge, Ready, Searched, barred, GapsMean};

// A gap: its first page, counted through the pool, and its number of pages.
#[derive(Clone, Copy)]
pub struct Gap {
    pub at: usize,
    pub len: usize,
}

// How far the search of a chunk has come: the first page of the open gap, or the chunk's end where none is open, and the best gap so far.
#[derive(Clone, Copy)]
pub struct Search {
    pub start: usize,
    pub best: Gap,
}

// The gap x, where it holds n pages and is shorter than the best one before it.
fn better_gap(best: Gap, n: usize, x: Gap) -> Gap
    ensures { result ≡ better n x best }
{
    if n <= x.len && x.len < best.len {
        x
    } else {
        best
    }
}

// The edges of a word: the places whose bit differs from the one before it, which is `before` for the lowest.
fn edges_of(w: u64, before: bool) -> u64
    ensures { Edges w 0 (digit before) result }
{
    w ^ ((w << 1) | before as u64)
}

// The search behind the edge at page e: the open gap ends there, or one starts there.
fn at_edge(s: Search, e: usize, to: usize, n: usize) -> Search
    ensures { result ≡ at_edge n to e s }
{
    let a = s.start;
    let best = s.best;
    if a < e {
        let best = better_gap(best, n, Gap { at: a, len: e - a });
        return Search { start: to, best };
    }
    Search { start: e, best }
}

// The search behind the 64 pages from q on, which the word w shows. A gap of exactly n pages ends it: none that holds n is shorter, and
// none of its length comes lower. A turn takes off the lowest edge that is left, so the loop goes over no range.
fn best_in_word(w: u64, q: usize, to: usize, n: usize, s: Search) -> Search
    requires room { q + 64 ≤ to }
    requires some { 1 ≤ n }
    requires ready { Ready to q s }
    ensures { Searched w q to n s result }
{
    let mut edges = edges_of(w, q <= s.start);
    let mut r = s;
    while edges != 0 && r.best.len != n {
        let e = q + edges.trailing_zeros() as usize;
        r = at_edge(r, e, to, n);
        edges = edges & (edges - 1);
    }
    r
}

// Word i of chunk k's page bits. Page 0 is in no gap, so it is read as taken.
fn page_word(bits: &[u64], k: usize, i: usize) -> u64
    requires long { 8 * k + 8 ≤ length bits.now }
    requires low { k < 16 }
    requires word { i < 8 }
    ensures { result ≡ get_or (barred bits.now k) (8 * k + i) 0 }
{
    let w = bits[8 * k + i];
    if i == 0 { w | 1 } else { w }
}

// The first free page of chunk k, its end where it has none. One is added to each word, which finds the word's first free page, and a full
// word stays full.
fn first_free(bits: &[u64], k: usize) -> usize
    requires long { 8 * k + 8 ≤ length bits.now }
    requires low { k < 16 }
    ensures { result ≡ next_bit 0 (barred bits.now k) (512 * k) 512 }
{
    let mut i = 0;
    while i < 8 {
        let w = page_word(bits, k, i);
        let t = bitrow::first_zero(w) as usize;
        if t < 64 {
            return 512 * k + 64 * i + t;
        }
        i += 1;
    }
    512 * k + 512
}

// The shortest of the gap before and those gaps of chunk k that hold n pages. A chunk with no free page has none. The loop counts eight
// words, from the first on, so that the compiler writes them out one after the other, as in `first_free`: that is faster, and by a `for` it does
// not, so that the search for a gap takes a seventh more instructions.
fn best_in_chunk(bits: &[u64], k: usize, n: usize, before: Gap) -> Gap
    requires long { 8 * k + 8 ≤ length bits.now }
    requires low { k < 16 }
    requires some { 1 ≤ n }
    ensures { result ≡ shortest n before (gaps_of bits.now k) }
{
    let to = 512 * k + 512;
    if first_free(bits, k) == to {
        return before;
    }
    let mut i = 0;
    let mut s = Search {
        start: to,
        best: before,
    };
    while i < 8 && s.best.len != n {
        let w = page_word(bits, k, i);
        s = best_in_word(w, 512 * k + 64 * i, to, n, s);
        i += 1;
    }
    let a = s.start;
    let best = s.best;
    better_gap(best, n, Gap { at: a, len: to - a })
}

// The first page of n pages, in the first of c chunks that has them. A gap is at most 511 pages long, so a length of 512 stands for none:
// the search then compares lengths alone.
pub fn find_pages(c: usize, bits: &[u64], n: usize) -> Option<usize>
    requires long { 8 * c ≤ length bits.now }
    requires few { c ≤ 16 }
    requires some { 1 ≤ n }
    ensures { result ≡ find_pages c bits.now n }
{
    let mut best = Gap { at: 0, len: 512 };
    for k in 0..c {
        best = best_in_chunk(bits, k, n, best);
        if best.len < 512 {
            break;
        }
    }
    if best.len < 512 { Some(best.at) } else { None }
}

// The search's definitions mean what RULES 5.3 says of gaps, both where pages are found and where none are. The answer itself says nothing.
pub fn gap_search() -> bool
    ensures { GapsMean }
{
    true
}
