// Bytes: a block's part of one ear's arena.
#![tactic(auto)]

ghost use Rattle.std.specs.Prelude.{◌≡◌, ◌*◌, eqb};
ghost use Rattle.records.specs.Lent.{before};
ghost use Rattle.blockbytes.specs.Bytes.{chosen, ear_fits, part, part_of, bytes_of, bytes_refusal_of};

use records::Records;
use refusals::SHAPE;

// A part of the chosen arena: where it starts and how long it is, or a refusal and nothing. C reads it as it is.
#[repr(C)]
#[derive(Clone, Copy)]
pub struct Part {
    pub refusal: u64,
    pub start: u64,
    pub size: u64,
}

// Whether n bytes are c chunks, which may be any number.
fn is_chunks(c: u64, n: usize) -> bool
    ensures { result ≡ eqb n (2097152 * c) }
{
    n % 2097152 == 0 && (n / 2097152) as u64 == c
}

// Whether there is such an ear, and its arena is that of c chunks. The other ear's is not looked at.
fn ear_fits(ear: u64, c: u64, nleft: usize, nright: usize) -> bool
    ensures { result ≡ ear_fits ear c (chosen ear nleft nright) }
{
    match ear {
        0 => is_chunks(c, nleft),
        1 => is_chunks(c, nright),
        _ => false,
    }
}

// What is answered where no part is served.
fn refused(refusal: u64) -> Part
    ensures { result ≡ part refusal 0 0 }
{
    Part {
        refusal,
        start: 0,
        size: 0,
    }
}

// The part within the chosen arena, by the lengths of both.
pub fn part_of(
    ear: u64,
    c: u64,
    bits: &[u64],
    words: &[u32],
    slots: &[u64],
    q: u64,
    nleft: usize,
    nright: usize,
) -> Part
    ensures { result ≡ part_of ear c (before bits.now words.now slots.now) q nleft nright }
{
    if !ear_fits(ear, c, nleft, nright) {
        return refused(SHAPE);
    }
    let a = admit::admit(c, bits, words, slots);
    if a != 0 {
        return refused(a);
    }
    let pool = Records {
        chunks: c,
        bits,
        words,
        slots,
    };
    let s = release::size_sound(&pool, q);
    if s.refusal != 0 {
        return refused(s.refusal);
    }
    Part {
        refusal: 0,
        start: q,
        size: s.size,
    }
}

// Bytes (RULES 6.6): the block's part of the left or the right arena, or an empty one.
pub fn bytes<'a>(
    ear: u64,
    c: u64,
    bits: &[u64],
    words: &[u32],
    slots: &[u64],
    q: u64,
    left: &'a [u8],
    right: &'a [u8],
) -> &'a [u8]
    ensures { result.now ≡ bytes_of ear c (before bits.now words.now slots.now) q left.now right.now }
{
    let x = part_of(ear, c, bits, words, slots, q, left.len(), right.len());
    let a = x.start as usize;
    let e = a + x.size as usize;
    if ear == 0 { &left[a..e] } else { &right[a..e] }
}

// The second call, with the same arguments: the refusal's number, 0 when the part is served.
pub fn bytes_refusal(
    ear: u64,
    c: u64,
    bits: &[u64],
    words: &[u32],
    slots: &[u64],
    q: u64,
    left: &[u8],
    right: &[u8],
) -> u64
    ensures { result ≡ bytes_refusal_of ear c (before bits.now words.now slots.now) q left.now right.now }
{
    part_of(ear, c, bits, words, slots, q, left.len(), right.len()).refusal
}
