// Text written into a lent buffer. Each function writes from a position on and answers the position
// behind what it wrote.
#![tactic(auto)]

ghost use Rattle.std.specs.Prelude.{◌≡◌, ◌+◌, ◌≤◌, ◌<◌, length, get_or, cond};
ghost use Rattle.text.specs.Text.{decimal, Appends, piece, takes, shows, filled, piece_room, room};

// How many decimal digits a number has.
pub fn decimal_length(n: u64) -> usize
    ensures { (result ≡ length (decimal n)) × (1 ≤ result) × (result ≤ 20) }
{
    let mut p = 1;
    for k in 1..20 {
        p *= 10;
        if n < p {
            return k;
        }
    }
    20
}

// A number in decimal, from its last digit to its first. It is printed by hand, since no clause of the library's `write!` into a slice
// says which bytes stand there then. The loop ends by the number: a `for` over the places takes longer where the digits are few.
pub fn put_decimal(out: &mut [u8], at: usize, n: u64) -> usize
    requires { at + length (decimal n) ≤ length out.old }
    ensures { Appends out.old out.new at result (decimal n) }
{
    let k = decimal_length(n);
    let mut m = n;
    let mut i = at + k - 1;
    while 10 <= m {
        out[i] = b'0' + (m % 10) as u8;
        m /= 10;
        i -= 1;
    }
    out[i] = b'0' + m as u8;
    at + k
}

// The number at index k, 0 where there is none.
fn number_at(ns: &[u64], k: usize) -> u64
    ensures { result ≡ get_or ns.now k 0 }
{
    ns.get(k).copied().unwrap_or(0)
}

// How many numbers a byte of a template takes.
fn number_takes(b: u8) -> usize
    ensures { (result ≡ takes b) × (result ≤ 1) }
{
    match b {
        b'[' | b'$' | b'~' => 1,
        _ => 0,
    }
}

// Whether what follows it is written.
fn shows_after(v: bool, b: u8, n: u64) -> bool
    ensures { result ≡ shows v b n }
{
    match b {
        b'[' => 0 < n,
        b']' => true,
        _ => v,
    }
}

// A byte that is not written counts as a bracket.
fn seen(v: bool, b: u8) -> u8
    ensures { result ≡ cond v b 93 }
{
    if v { b } else { b']' }
}

// What a byte of a template writes.
fn put_piece(out: &mut [u8], at: usize, b: u8, n: u64) -> usize
    requires { at + piece_room b ≤ length out.old }
    ensures { (Appends out.old out.new at result (piece b n)) × (result ≤ at + piece_room b) }
{
    match b {
        b'[' | b']' => at,
        b'$' => put_decimal(out, at, n),
        b'~' => {
            out[at] = (n % 256) as u8;
            at + 1
        },
        _ => {
            out[at] = b;
            at + 1
        },
    }
}

// A template with numbers in its places.
pub fn put_filled(out: &mut [u8], at: usize, t: &[u8], ns: &[u64]) -> usize
    requires { at + room t.now ≤ length out.old }
    ensures appends { Appends out.old out.new at result (filled t.now ns.now) }
    ensures upper_bound { result ≤ at + room t.now }
{
    let mut v = true;
    let mut j = at;
    let mut k = 0;
    for &b in t {
        let n = number_at(ns, k);
        j = put_piece(out, j, seen(v, b), n);
        v = shows_after(v, b, n);
        k += number_takes(b);
    }
    j
}
