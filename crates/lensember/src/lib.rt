// The calls on lent buffers, each with an answer that is a number or a plain struct: `lensember_c` exports them to C (include/lensember.h).
// Each call checks what it is lent, and then works by an inner function that needs no check. The check stands in each of them, since each tells
// a refusal by a struct of its own, which C reads.
#![tactic(auto)]

ghost use Rattle.std.specs.Prelude.{◌≡◌};
ghost use Rattle.records.specs.Lent.{before, after};
ghost use Rattle.records.specs.Calls.{admit_of, leaves, fresh_of};
ghost use Rattle.reserve.specs.Reserve.{reserve_of};
ghost use Rattle.sweep.specs.Sweep.{sweep_of};
ghost use Rattle.release.specs.Release.{release_of, size_of};
ghost use Rattle.resize.specs.Resize.{resize_of};
ghost use Rattle.next.specs.Next.{next_of};
ghost use Rattle.census.specs.Census.{census_of};
ghost use Rattle.totals.specs.Totals.{totals_of};
ghost use Rattle.blockbytes.specs.Bytes.{part_of};
ghost use Rattle.replay.specs.Run.{replay_of};
ghost use Rattle.lines.specs.Lines.{printed_of};
ghost use Rattle.writer.specs.Append.{append_as};
ghost use Rattle.exchange.specs.Exchange.{import_of, export_of};
ghost use Rattle.lensember.specs.Flat.{flat_reserved, reserved_of};

use records::Records;
use reserve::{Given, Reserved};

// struct lensember_reserved: kind is 0 for nothing, 1 for a slot, 2 for a page run; what does not apply is 0.
#[repr(C)]
#[derive(Clone, Copy)]
pub struct FlatReserved {
    pub refusal: u64,
    pub place: u64,
    pub size: u64,
    pub kind: u64,
    pub class: u64,
    pub first: u64,
    pub number: u64,
    pub pages: u64,
}

// An answer with its kind as a number.
impl From<Reserved> for FlatReserved {
    ghost from_gives = { λ r x. x ≡ flat_reserved r };

    fn from(r: Reserved) -> FlatReserved {
        let nothing = FlatReserved {
            refusal: r.refusal,
            place: r.place,
            size: r.size,
            kind: 0,
            class: 0,
            first: 0,
            number: 0,
            pages: 0,
        };
        match r.kind {
            Given::Slot(s) => FlatReserved {
                kind: 1,
                class: s.class,
                first: s.first,
                number: s.number,
                ..nothing
            },
            Given::Run(n) => FlatReserved {
                kind: 2,
                pages: n,
                ..nothing
            },
            Given::None => nothing,
        }
    }
}

// Whether lent records are sound: refusal 1 or 2, or 0.
pub fn lensember_check(c: u64, bits: &[u64], words: &[u32], slots: &[u64]) -> u64
    ensures { result ≡ admit_of c (before bits.now words.now slots.now) }
{
    admit::admit(c, bits, words, slots)
}

// Fresh (RULES 5.1): refusal 1, or 0.
pub fn lensember_fresh(c: u64, bits: &mut [u64], words: &mut [u32], slots: &mut [u64]) -> u64
    ensures { leaves result (after bits.new words.new slots.new) ≡ fresh_of c (before bits.old words.old slots.old) }
{
    fresh::fresh(c, bits, words, slots)
}

// Reserve (RULES 5.2): what was given, or refusal 1, 2, 3 or 4 and nothing is changed.
pub fn lensember_reserve(
    c: u64,
    bits: &mut [u64],
    words: &mut [u32],
    slots: &mut [u64],
    size: u64,
) -> FlatReserved
    ensures { leaves result (after bits.new words.new slots.new) ≡ reserved_of (reserve_of c (before bits.old words.old slots.old) size) }
{
    let a = admit::admit(c, bits, words, slots);
    if a != 0 {
        return FlatReserved::from(reserve::refused(a));
    }
    FlatReserved::from(reserve::reserve_sound(c, bits, words, slots, size))
}

// Release (RULES 5.4): 0, or refusal 1, 2, 5 or 6 and nothing is changed.
pub fn lensember_release(
    c: u64,
    bits: &mut [u64],
    words: &mut [u32],
    slots: &mut [u64],
    place: u64,
) -> u64
    ensures { leaves result (after bits.new words.new slots.new) ≡ release_of c (before bits.old words.old slots.old) place }
{
    let a = admit::admit(c, bits, words, slots);
    if a != 0 {
        return a;
    }
    release::release_sound(c, bits, words, slots, place)
}

// Resize (RULES 5.6): where the block is and what was given, kept or moved, or refusal 1, 2, 5, 6, 3 or 4 and nothing is changed.
pub fn lensember_resize(
    c: u64,
    bits: &mut [u64],
    words: &mut [u32],
    slots: &mut [u64],
    place: u64,
    size: u64,
) -> resize::Resized
    ensures { leaves result (after bits.new words.new slots.new) ≡ resize_of c (before bits.old words.old slots.old) place size }
{
    let a = admit::admit(c, bits, words, slots);
    if a != 0 {
        return resize::refused(a);
    }
    resize::resize_sound(c, bits, words, slots, place, size)
}

// Sweep (RULES 5.5): the pages gained, or refusal 1 or 2 and nothing is changed.
pub fn lensember_sweep(
    c: u64,
    bits: &mut [u64],
    words: &mut [u32],
    slots: &mut [u64],
) -> sweep::Swept
    ensures { leaves result (after bits.new words.new slots.new) ≡ sweep_of c (before bits.old words.old slots.old) }
{
    let a = admit::admit(c, bits, words, slots);
    if a != 0 {
        return sweep::Swept {
            refusal: a,
            pages: 0,
        };
    }
    sweep::sweep_sound(c, bits, words, slots)
}

// Block size (RULES 6.2): the size given to the live block at the place, or refusal 1, 2, 5 or 6.
pub fn lensember_block_size(
    c: u64,
    bits: &[u64],
    words: &[u32],
    slots: &[u64],
    place: u64,
) -> release::Sized
    ensures { result ≡ size_of c (before bits.now words.now slots.now) place }
{
    let a = admit::admit(c, bits, words, slots);
    if a != 0 {
        return release::Sized {
            refusal: a,
            size: 0,
        };
    }
    let pool = Records {
        chunks: c,
        bits,
        words,
        slots,
    };
    release::size_sound(&pool, place)
}

// Next (RULES 6.3): the live block with the lowest place at or above a place, or refusal 1 or 2.
pub fn lensember_next(c: u64, bits: &[u64], words: &[u32], slots: &[u64], place: u64) -> next::Next
    ensures { result ≡ next_of c (before bits.now words.now slots.now) place }
{
    let a = admit::admit(c, bits, words, slots);
    if a != 0 {
        return next::Next {
            refusal: a,
            place: 0,
            size: 0,
        };
    }
    let pool = Records {
        chunks: c,
        bits,
        words,
        slots,
    };
    next::answer_of(next::next_sound(&pool, place))
}

// Census (RULES 6.4): the count of the live blocks, or refusal 1, 2 or 7 and nothing is written.
pub fn lensember_census(
    c: u64,
    bits: &[u64],
    words: &[u32],
    slots: &[u64],
    room: &mut [u64],
) -> census::Counted
    ensures { leaves result room.new ≡ census_of c (before bits.now words.now slots.now) room.old }
{
    let a = admit::admit(c, bits, words, slots);
    if a != 0 {
        return census::Counted {
            refusal: a,
            count: 0,
        };
    }
    let pool = Records {
        chunks: c,
        bits,
        words,
        slots,
    };
    census::census_sound(&pool, room)
}

// Totals (RULES 6.5), or refusal 1 or 2.
pub fn lensember_totals(c: u64, bits: &[u64], words: &[u32], slots: &[u64]) -> totals::Sums
    ensures { result ≡ totals_of c (before bits.now words.now slots.now) }
{
    let a = admit::admit(c, bits, words, slots);
    if a != 0 {
        return totals::Sums {
            refusal: a,
            blocks: 0,
            bytes: 0,
            free: 0,
        };
    }
    let pool = Records {
        chunks: c,
        bits,
        words,
        slots,
    };
    totals::totals_sound(&pool)
}

// Bytes (RULES 6.6), by the lengths of both arenas: where the part lies in the chosen one. A slice cannot be handed back to C.
pub fn lensember_bytes(
    c: u64,
    bits: &[u64],
    words: &[u32],
    slots: &[u64],
    ear: u64,
    place: u64,
    nleft: usize,
    nright: usize,
) -> blockbytes::Part
    ensures { result ≡ part_of ear c (before bits.now words.now slots.now) place nleft nright }
{
    blockbytes::part_of(ear, c, bits, words, slots, place, nleft, nright)
}

// Replay of a request log (RULES 8).
pub fn lensember_replay(
    c: u64,
    bits: &mut [u64],
    words: &mut [u32],
    slots: &mut [u64],
    log: &[u8],
) -> replay::Replayed
    ensures { leaves result (after bits.new words.new slots.new) ≡ replay_of c (before bits.old words.old slots.old) log.now }
{
    replay::replay(c, bits, words, slots, log)
}

// The same, with its lines (RULES 9.2).
pub fn lensember_lines(
    c: u64,
    bits: &mut [u64],
    words: &mut [u32],
    slots: &mut [u64],
    log: &[u8],
    out: &mut [u8],
) -> lines::Printed
    ensures { leaves result (after bits.new words.new slots.new, out.new)
        ≡ printed_of c (before bits.old words.old slots.old) log.now out.old }
{
    lines::lines(c, bits, words, slots, log, out)
}

// Append (RULES 7.4), the field by its tag and numbers: the new length, or refusal 1, 9 or 7 and nothing is written.
pub fn lensember_append(
    log: &mut [u8],
    length: u64,
    tag: u64,
    first: u64,
    second: u64,
) -> writer::Appended
    ensures { leaves result log.new ≡ append_as log.old length tag first second }
{
    writer::append_as(log, length, tag, first, second)
}

// Import (RULES 9.6): the length of the log, or refusal 13 or 7 and nothing is written.
pub fn lensember_import(text: &[u8], log: &mut [u8]) -> exchange::Imported
    ensures { leaves result log.new ≡ import_of text.now log.old }
{
    exchange::import(text, log)
}

// Export (RULES 9.7): the length of the text, or refusal 8, 9 or 7 and nothing is written.
pub fn lensember_export(log: &[u8], text: &mut [u8]) -> exchange::Exported
    ensures { leaves result text.new ≡ export_of log.now text.old }
{
    exchange::export(log, text)
}
