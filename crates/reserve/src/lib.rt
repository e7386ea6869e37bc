// Reserve: a slot of the smallest class that holds the request, or a run of pages.
#![tactic(auto)]

ghost use Rattle.std.specs.Prelude.{◌≡◌, ◌+◌, ◌-◌, ◌*◌, ◌<◌, ◌≤◌, length};
ghost use Rattle.records.specs.declared.Kind.TheVariants.{Class};
ghost use Rattle.records.specs.Kinds.{slots_of};
ghost use Rattle.records.specs.Shown.{pool_of};
ghost use Rattle.records.specs.Lent.{lent, before, after};
ghost use Rattle.records.specs.Calls.{admit_of, leaves};
ghost use Rattle.reserve.specs.Reserve.{lowest_free, has_slot, slot_page, plan_slot, plan_class, plan_run, pages_for, plan_large, plan, is_full, ready, perform, slot_given, answer, serve, refused};
ghost use Rattle.reserve.specs.Plans.{PlanOk, PlanLow, plan_pages};

use records::Records;
use refusals::{NO_ROOM, TOO_BIG};

// What a reserve will do: refuse with a number; take slot s of the run of class b at page g; start a run of class b at page g; start a
// large run at page g, with k pages behind it.
#[derive(Clone, Copy)]
pub enum Plan {
    Refuse(u64),
    TakeSlot(usize, usize, usize),
    NewClass(usize, usize),
    NewLarge(usize, usize),
}

// A slot: its class, the first page of its run, as a page of its chunk, and its number in the run.
#[derive(Clone, Copy)]
pub struct SlotAt {
    pub class: u64,
    pub first: u64,
    pub number: u64,
}

// What was given: a slot, a run of so many pages, or nothing.
#[derive(Clone, Copy)]
pub enum Given {
    Slot(SlotAt),
    Run(u64),
    None,
}

#[derive(Clone, Copy)]
pub struct Reserved {
    pub refusal: u64,
    pub place: u64,
    pub size: u64,
    pub kind: Given,
}

// The number of the lowest free slot of the run of class b at page g, which has n slots; n where none is free.
fn lowest_free(slots: &[u64], g: usize, b: usize, n: usize) -> usize
    requires low { g < 8192 }
    requires long { 512 * g + 512 ≤ 64 * length slots.now }
    requires count { n ≡ slots_of (Class b) }
    requires few { n ≤ 512 }
    ensures { result ≡ lowest_free slots.now b g }
{
    bitrow::next_bit(slots, 512 * g, 512 * g + n, false) - 512 * g
}

// Whether a run of class b with a free slot starts at page g; such runs have n slots.
fn has_slot(pool: &Records, g: usize, b: usize, n: usize) -> bool
    requires inside { g < 512 * pool.now.chunks }
    requires class { b < 30 }
    requires count { n ≡ slots_of (Class b) }
    ensures { result ≡ has_slot (pool_of pool.now) b g }
{
    pool.is_run_of(g, b) && lowest_free(pool.slots, g, b, n) < n
}

// The first page at which a run of class b with a free slot starts; behind the last page where there is none.
fn slot_page(pool: &Records, b: usize, n: usize) -> usize
    requires class { b < 30 }
    requires count { n ≡ slots_of (Class b) }
    ensures { result ≡ slot_page (pool_of pool.now) b 0 (512 * pool.now.chunks) }
{
    let end = 512 * (pool.chunks as usize);
    for g in 0..end {
        if has_slot(pool, g, b, n) {
            return g;
        }
    }
    end
}

// A new run of class b.
fn plan_class(c: u64, bits: &[u64], b: usize) -> Plan
    requires long { 8 * c ≤ length bits.now }
    requires few { c ≤ 16 }
    requires class { b < 30 }
    ensures { result ≡ plan_class c bits.now b }
{
    let row = classes::class_row(b);
    match gaps::find_pages(c as usize, bits, usize::from(row.pages)) {
        Some(g) => Plan::NewClass(g, b),
        None => Plan::Refuse(NO_ROOM),
    }
}

// A slot of class b: the lowest free one of the run at page g, of n slots; or, where g is behind the last page, one of a new run.
fn plan_slot(pool: &Records, b: usize, n: usize, g: usize) -> Plan
    requires class { b < 30 }
    requires count { n ≡ slots_of (Class b) }
    requires first { g ≡ slot_page (pool_of pool.now) b 0 (512 * pool.now.chunks) }
    ensures { result ≡ plan_slot pool.now.chunks (pool_of pool.now) b }
{
    if g < 512 * (pool.chunks as usize) {
        let free = lowest_free(pool.slots, g, b, n);
        Plan::TakeSlot(g, b, free)
    } else {
        plan_class(pool.chunks, pool.bits, b)
    }
}

// A large run of n pages.
fn plan_run(c: u64, bits: &[u64], n: usize) -> Plan
    requires long { 8 * c ≤ length bits.now }
    requires few { c ≤ 16 }
    requires some { 1 ≤ n }
    ensures { result ≡ plan_run c bits.now n }
{
    match gaps::find_pages(c as usize, bits, n) {
        Some(g) => Plan::NewLarge(g, n - 1),
        None => Plan::Refuse(NO_ROOM),
    }
}

// The pages that hold n bytes.
pub fn pages_for(n: u64) -> usize
    requires { n ≤ 4294967295 }
    ensures { result ≡ pages_for n }
{
    ((n + 4095) / 4096) as usize
}

// A request of more bytes than a slot holds.
fn plan_large(c: u64, bits: &[u64], n: u64) -> Plan
    requires long { 8 * c ≤ length bits.now }
    requires few { c ≤ 16 }
    requires large { 3072 < n }
    ensures { result ≡ plan_large c bits.now n }
{
    if 2093056 < n {
        return Plan::Refuse(TOO_BIG);
    }
    plan_run(c, bits, pages_for(n))
}

// What a reserve of n bytes will do, on records that are sound.
fn plan_for(pool: &Records, n: u64) -> Plan
    ensures { result ≡ plan pool.now.chunks (pool_of pool.now) n }
{
    if n <= 3072 {
        let b = classes::class_of(n as usize);
        let row = classes::class_row(b);
        let k = usize::from(row.slots);
        let g = slot_page(pool, b, k);
        return plan_slot(pool, b, k, g);
    }
    plan_large(pool.chunks, pool.bits, n)
}

// Whether a plan is to refuse 4.
pub fn is_full(x: Plan) -> bool
    ensures { result ≡ is_full x }
{
    match x {
        Plan::Refuse(r) => r == NO_ROOM,
        _ => false,
    }
}

// What a reserve of n bytes will do where no slot of its class is free, by the page bits alone.
fn plan_pages(c: u64, bits: &[u64], n: u64) -> Plan
    requires long { 8 * c ≤ length bits.now }
    requires few { c ≤ 16 }
    ensures { result ≡ plan_pages c bits.now n }
{
    if n <= 3072 {
        return plan_class(c, bits, classes::class_of(n as usize));
    }
    plan_large(c, bits, n)
}

// Where x, the plan for n bytes, is to refuse 4, the search is made once more without the empty runs, and these are given back if it finds
// room. Answers the plan for what is left.
pub fn make_room(
    c: u64,
    bits: &mut [u64],
    words: &mut [u32],
    slots: &[u64],
    n: u64,
    x: Plan,
) -> Plan
    requires sound { admit_of c (lent bits.old words.old slots.now) ≡ 0 }
    requires plan { x ≡ plan c (lent bits.old words.old slots.now) n }
    ensures left { after bits.new words.new slots.now ≡ ready c (before bits.old words.old slots.now) n }
    ensures plan { result ≡ plan c (ready c (before bits.old words.old slots.now) n) n }
{
    if !is_full(x) {
        return x;
    }
    let pool = Records {
        chunks: c,
        bits,
        words,
        slots,
    };
    let mut spare = [0; 128];
    sweep::swept_bits(&pool, &mut spare);
    let y = plan_pages(c, &spare, n);
    if is_full(y) {
        return y;
    }
    sweep::give_back(c, bits, words, slots, &spare);
    y
}

// The stores of a plan.
pub fn perform_plan(c: u64, bits: &mut [u64], words: &mut [u32], slots: &mut [u64], x: Plan)
    requires { (admit_of c (lent bits.old words.old slots.old) ≡ 0) × (PlanOk c (lent bits.old words.old slots.old) x) }
    ensures { after bits.new words.new slots.new ≡ perform (before bits.old words.old slots.old) x }
{
    match x {
        Plan::Refuse(_) => {}
        Plan::TakeSlot(g, _, s) => blocks::put_slot(bits, words, slots, g, s, true),
        Plan::NewClass(g, b) => {
            blocks::put_class(bits, words, slots, g, b);
            blocks::put_slot(bits, words, slots, g, 0, true);
        }
        Plan::NewLarge(g, k) => blocks::put_large(bits, words, slots, g, k),
    }
}

// Nothing is given.
pub fn refused(r: u64) -> Reserved
    ensures { result ≡ refused r }
{
    Reserved {
        refusal: r,
        place: 0,
        size: 0,
        kind: Given::None,
    }
}

// Slot s of the run of class b at page g.
fn slot_given(g: usize, b: usize, s: usize) -> Reserved
    requires { (g < 8192) × (b < 30) × (s < 512) }
    ensures { result ≡ slot_given g b s }
{
    let row = classes::class_row(b);
    let bytes = u64::from(row.size);
    let page = g as u64;
    let number = s as u64;
    let slot = SlotAt {
        class: b as u64,
        first: page % 512,
        number,
    };
    Reserved {
        refusal: 0,
        place: 4096 * page + number * bytes,
        size: bytes,
        kind: Given::Slot(slot),
    }
}

// What a plan answers.
fn answer_of(x: Plan) -> Reserved
    requires { PlanLow x }
    ensures { result ≡ answer x }
{
    match x {
        Plan::Refuse(r) => refused(r),
        Plan::TakeSlot(g, b, s) => slot_given(g, b, s),
        Plan::NewClass(g, b) => slot_given(g, b, 0),
        Plan::NewLarge(g, k) => {
            let pages = k as u64 + 1;
            Reserved {
                refusal: 0,
                place: 4096 * g as u64,
                size: 4096 * pages,
                kind: Given::Run(pages),
            }
        }
    }
}

// The work of a reserve, on records that are sound.
pub fn reserve_sound(
    c: u64,
    bits: &mut [u64],
    words: &mut [u32],
    slots: &mut [u64],
    n: u64,
) -> Reserved
    requires { admit_of c (lent bits.old words.old slots.old) ≡ 0 }
    ensures { leaves result (after bits.new words.new slots.new) ≡ serve c (before bits.old words.old slots.old) n }
{
    let pool = Records {
        chunks: c,
        bits,
        words,
        slots,
    };
    let x = plan_for(&pool, n);
    let y = make_room(c, bits, words, slots, n, x);
    perform_plan(c, bits, words, slots, y);
    answer_of(y)
}
