// Rows of bits in 64-bit words. Page bits and slot bits are such rows, so each search, change and count is here once, with the bit's
// value as an argument where it has one.
#![tactic(auto)]

ghost use Rattle.std.specs.Prelude.{◌≡◌, ℕ, ◌+◌, ◌-◌, ◌*◌, ◌%◌, ◌^◌, ◌<◌, ◌≤◌, not, length};
ghost use Rattle.bitrow.specs.Row.{digit, is_set, Lowest, next_bit, word_put, put_bit, put_bits, count_bits};
ghost use Rattle.bitrow.specs.Mask.{mask_of, with_mask};

// Whether bit i of the row is 1.
pub fn is_set(words: &[u64], i: usize) -> bool
    requires { i < 64 * length words.now }
    ensures { result ≡ is_set words.now i }
{
    (words[i / 64] >> (i % 64)) % 2 == 1
}

// The place of the lowest 0 bit of a word, 64 where all are 1. One more than the word has as many zeros at its low end as the word has
// ones there. The full word plus one comes out as zero, which has 64 of them, so it still reads as full: hence the sum that wraps.
pub fn first_zero(w: u64) -> u32
    ensures { Lowest 64 w 0 result }
{
    w.wrapping_add(1).trailing_zeros()
}

// The place of the lowest 1 bit of a word, 64 where all are 0.
pub fn first_one(w: u64) -> u32
    ensures { Lowest 64 w 1 result }
{
    w.trailing_zeros()
}

// The place of the lowest bit v of a word, 64 where it has none.
fn first_bit(w: u64, v: bool) -> u32
    ensures { Lowest 64 w (digit v) result }
{
    if v { first_one(w) } else { first_zero(w) }
}

// The word without its lowest 1 bit, if so; it has one. One less than the word has a 0 there and 1 bits below.
pub fn without_lowest(w: u64, so: bool) -> u64
    requires { 1 ≤ w }
    ensures { (t : ℕ) → Lowest 64 w 1 t → result ≡ word_put (digit (not so)) w t }
{
    w & (w - u64::from(so))
}

// The first place in from..to whose bit is v, or `to` where there is none. The shift brings zeros in from the top: a bit found among
// those is in no place of the word, so only one below `left` counts. The last word is read to its end, and what lies behind `to` is cut
// off at the return: so a turn needs no second bound, and long searches are quicker. A turn goes to the end of its word: a `for` over the
// words, each cut to from..to, takes longer where the first word decides, as it mostly does.
pub fn next_bit(words: &[u64], from: usize, to: usize, v: bool) -> usize
    requires order { from ≤ to }
    requires long { to ≤ 64 * length words.now }
    requires low { to < 2 ^ 32 }
    ensures { result ≡ next_bit (digit v) words.now from (to - from) }
{
    let mut q = from;
    while q < to {
        let o = q % 64;
        let left = 64 - o;
        let w = words[q / 64];
        let t = first_bit(w >> o, v) as usize;
        if t < left {
            return (q + t).min(to);
        }
        q += left;
    }
    to
}

// The word whose n bits from o on are 1.
fn mask(o: usize, n: usize) -> u64
    requires { (1 ≤ n) × (o + n ≤ 64) }
    ensures { result ≡ mask_of o n }
{
    (u64::MAX >> (64 - n)) << o
}

// The word with the bits of the mask b at the value v.
fn put_mask(w: u64, b: u64, v: bool) -> u64
    ensures { result ≡ with_mask (digit v) w b }
{
    if v { w | b } else { w & !b }
}

// Puts v at the m places from i on, which lie in one word.
fn put_in_word(words: &mut [u64], i: usize, m: usize, v: bool)
    requires long { i < 64 * length words.old }
    requires some { 1 ≤ m }
    requires word { i % 64 + m ≤ 64 }
    ensures { words.new ≡ put_bits (digit v) words.old i m }
{
    let j = i / 64;
    let b = mask(i % 64, m);
    let w = words[j];
    words[j] = put_mask(w, b, v);
}

// Puts v at place i.
pub fn put_bit(words: &mut [u64], i: usize, v: bool)
    requires { i < 64 * length words.old }
    ensures { words.new ≡ put_bit (digit v) words.old i }
{
    put_in_word(words, i, 1, v);
}

// Puts v at the n places from `from` on, a word or the part of one at a time. A `for` over the words would cut each to these places too, and
// ask first whether there are any.
pub fn put_bits(words: &mut [u64], from: usize, n: usize, v: bool)
    requires { (from + n ≤ 64 * length words.old) × (from + n < 2 ^ 32) }
    ensures { words.new ≡ put_bits (digit v) words.old from n }
{
    let to = from + n;
    let mut i = from;
    while i < to {
        let m = (to - i).min(64 - i % 64);
        put_in_word(words, i, m, v);
        i += m;
    }
}

// How many of the n bits from `from` on are 1, a word or the part of one at a time. A `for` over the words is no plainer, as in `put_bits`.
pub fn count_bits(words: &[u64], from: usize, n: usize) -> usize
    requires { (from + n ≤ 64 * length words.now) × (from + n < 2 ^ 32) }
    ensures { result ≡ count_bits words.now from n }
{
    let to = from + n;
    let mut sum = 0;
    let mut i = from;
    while i < to {
        let o = i % 64;
        let m = (to - i).min(64 - o);
        let b = mask(o, m);
        sum += (words[i / 64] & b).count_ones() as usize;
        i += m;
    }
    sum
}
