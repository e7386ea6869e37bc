// Reserve and release for a caller that owns sound records and keeps their marks: no search goes over the pages, and the answer is a number.
#![tactic(auto)]

ghost use Rattle.std.specs.Prelude.{◌≡◌, ◌*◌, ◌<◌};
ghost use Rattle.records.specs.Lent.{lent, before, after};
ghost use Rattle.records.specs.Calls.{admit_of, leaves};
ghost use Rattle.refusals.specs.Refusals.{no_room};
ghost use Rattle.reserve.specs.declared.Plan.TheVariants.{Refuse};
ghost use Rattle.reserve.specs.Reserve.{plan_class, plan};
ghost use Rattle.reserve.specs.Plans.{PlanLow};
ghost use Rattle.release.specs.Release.{give};
ghost use Rattle.hints.specs.Hints.{Marks};
ghost use Rattle.marked.specs.Marked.{code_of, carried, coded, SameRuns};

use records::Records;
use refusals::{NO_BLOCK, NO_ROOM, TOO_BIG};

// Reserves n bytes, more than a slot holds, in free pages; no room where no gap holds them.
fn reserve_run(c: u64, bits: &mut [u64], words: &mut [u32], slots: &[u64], n: u64) -> u64
    requires sound { admit_of c (lent bits.old words.old slots.now) ≡ 0 }
    requires large { 3072 < n }
    ensures given { leaves result (after bits.new words.new slots.now) ≡ carried (before bits.old words.old slots.now) (plan c (before bits.old words.old slots.now) n) }
    ensures same { SameRuns (before bits.old words.old slots.now) (after bits.new words.new slots.now) }
{
    if 2093056 < n {
        return TOO_BIG;
    }
    let m = reserve::pages_for(n);
    match gaps::find_pages(c as usize, bits, m) {
        Some(g) => {
            blocks::put_large(bits, words, slots, g, m - 1);
            512 * g as u64
        }
        None => NO_ROOM,
    }
}

// Reserves a slot of class b in a new run; no room where no gap holds one.
fn reserve_class(
    c: u64,
    bits: &mut [u64],
    words: &mut [u32],
    slots: &mut [u64],
    rows: &mut [u64],
    opens: &mut [u8],
    b: usize,
) -> u64
    requires sound { admit_of c (lent bits.old words.old slots.old) ≡ 0 }
    requires marks { Marks (512 * c) (lent bits.old words.old slots.old) rows.old opens.old }
    requires class { b < 30 }
    ensures given { leaves result (after bits.new words.new slots.new) ≡ carried (before bits.old words.old slots.old) (plan_class c bits.old b) }
    ensures marks { Marks (512 * c) (after bits.new words.new slots.new) rows.new opens.new }
{
    let row = classes::class_row(b);
    match gaps::find_pages(c as usize, bits, usize::from(row.pages)) {
        Some(g) => {
            reserve::perform_plan(c, bits, words, slots, reserve::Plan::NewClass(g, b));
            let pool = Records {
                chunks: c,
                bits,
                words,
                slots,
            };
            hints::note(&pool, rows, opens, g, b);
            512 * g as u64
        }
        None => NO_ROOM,
    }
}

// Reserves n bytes in a free slot or in free pages; no room where there are none.
fn reserve_now(
    c: u64,
    bits: &mut [u64],
    words: &mut [u32],
    slots: &mut [u64],
    rows: &mut [u64],
    opens: &mut [u8],
    n: u64,
) -> u64
    requires sound { admit_of c (lent bits.old words.old slots.old) ≡ 0 }
    requires marks { Marks (512 * c) (lent bits.old words.old slots.old) rows.old opens.old }
    ensures given { leaves result (after bits.new words.new slots.new) ≡ carried (before bits.old words.old slots.old) (plan c (before bits.old words.old slots.old) n) }
    ensures marks { Marks (512 * c) (after bits.new words.new slots.new) rows.new opens.new }
{
    if 3072 < n {
        return reserve_run(c, bits, words, slots, n);
    }
    let b = classes::class_of(n as usize);
    match hints::take(c, bits, words, slots, rows, opens, b) {
        Some(t) => t as u64,
        None => reserve_class(c, bits, words, slots, rows, opens, b),
    }
}

// What a plan gives, as a number.
fn code_of(x: reserve::Plan) -> u64
    requires { PlanLow x }
    ensures { result ≡ code_of x }
{
    match x {
        reserve::Plan::Refuse(r) => r,
        reserve::Plan::TakeSlot(g, _, s) => (512 * g + s) as u64,
        reserve::Plan::NewClass(g, _) | reserve::Plan::NewLarge(g, _) => 512 * g as u64,
    }
}

// Reserves n bytes, for which there is no room, behind a sweep where that helps. The marks of what it leaves are made anew.
fn reserve_swept(
    c: u64,
    bits: &mut [u64],
    words: &mut [u32],
    slots: &mut [u64],
    rows: &mut [u64],
    opens: &mut [u8],
    n: u64,
) -> u64
    requires sound { admit_of c (lent bits.old words.old slots.old) ≡ 0 }
    requires marks { Marks (512 * c) (lent bits.old words.old slots.old) rows.old opens.old }
    requires full { plan c (lent bits.old words.old slots.old) n ≡ Refuse no_room }
    ensures given { leaves result (after bits.new words.new slots.new) ≡ coded c (before bits.old words.old slots.old) n }
    ensures marks { Marks (512 * c) (after bits.new words.new slots.new) rows.new opens.new }
{
    let x = reserve::make_room(c, bits, words, slots, n, reserve::Plan::Refuse(NO_ROOM));
    if reserve::is_full(x) {
        return NO_ROOM;
    }
    reserve::perform_plan(c, bits, words, slots, x);
    let pool = Records {
        chunks: c,
        bits,
        words,
        slots,
    };
    hints::build(&pool, rows, opens);
    code_of(x)
}

// Reserves n bytes.
pub fn reserve_marked(
    c: u64,
    bits: &mut [u64],
    words: &mut [u32],
    slots: &mut [u64],
    rows: &mut [u64],
    opens: &mut [u8],
    n: u64,
) -> u64
    requires sound { admit_of c (lent bits.old words.old slots.old) ≡ 0 }
    requires marks { Marks (512 * c) (lent bits.old words.old slots.old) rows.old opens.old }
    ensures given { leaves result (after bits.new words.new slots.new) ≡ coded c (before bits.old words.old slots.old) n }
    ensures marks { Marks (512 * c) (after bits.new words.new slots.new) rows.new opens.new }
{
    let r = reserve_now(c, bits, words, slots, rows, opens, n);
    if r != NO_ROOM {
        return r;
    }
    reserve_swept(c, bits, words, slots, rows, opens, n)
}

// Gives back what starts at the place q.
pub fn release_marked(
    c: u64,
    bits: &mut [u64],
    words: &mut [u32],
    slots: &mut [u64],
    rows: &mut [u64],
    opens: &mut [u8],
    q: u64,
) -> u64
    requires sound { admit_of c (lent bits.old words.old slots.old) ≡ 0 }
    requires marks { Marks (512 * c) (lent bits.old words.old slots.old) rows.old opens.old }
    ensures given { leaves result (after bits.new words.new slots.new) ≡ give c (before bits.old words.old slots.old) q }
    ensures marks { Marks (512 * c) (after bits.new words.new slots.new) rows.new opens.new }
{
    if 512 * c <= q / 4096 {
        return NO_BLOCK;
    }
    let pool = Records {
        chunks: c,
        bits,
        words,
        slots,
    };
    let at = q as usize;
    let page = at / 4096;
    if !pool.in_class(page) {
        return release::release_sound(c, bits, words, slots, q);
    }
    let run = pool.class_run(page);
    let off = at - 4096 * run.first;
    hints::give(
        c, bits, words, slots, rows, opens, run.first, run.class, off,
    )
}
