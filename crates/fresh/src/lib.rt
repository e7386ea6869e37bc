// Fresh records.
#![tactic(auto)]

ghost use Rattle.std.specs.Prelude.{◌≡◌, ◌<◌, length};
ghost use Rattle.records.specs.Lent.{before, after};
ghost use Rattle.records.specs.Calls.{leaves, fresh_of};
ghost use Rattle.fresh.specs.Fill.{each, row};

use refusals::SHAPE;

// What stands at place i of a row whose every m-th element is `first`, from the start on, and all others `rest`.
fn each_of<T: Copy>(m: usize, first: T, rest: T, i: usize) -> T
    requires { 0 < m }
    ensures { result ≡ each m first rest i }
{
    if i % m == 0 { first } else { rest }
}

// Every m-th word becomes `first`, all others `rest`.
fn fill_each<T: Copy>(words: &mut [T], m: usize, first: T, rest: T)
    requires { 0 < m }
    ensures { words.new ≡ row (each m first rest) (length words.old) }
{
    for (i, w) in words.iter_mut().enumerate() {
        *w = each_of(m, first, rest, i);
    }
}

// Fresh (RULES 5.1): 0, and the records of a pool of c chunks in which only each chunk's page 0 is taken; or 1, and nothing is changed.
pub fn fresh(c: u64, bits: &mut [u64], words: &mut [u32], slots: &mut [u64]) -> u64
    ensures { leaves result (after bits.new words.new slots.new) ≡ fresh_of c (before bits.old words.old slots.old) }
{
    if !records::is_shaped(c, bits.len(), words.len(), slots.len()) {
        return SHAPE;
    }
    fill_each(bits, 8, 1, 0);
    fill_each(words, 512, records::edge_word(), 0);
    slots.fill(0);
    0
}
