// The live blocks of a pool, and how each store changes them. Nobody else writes a slot bit or the words and bits of a run. Definitions in
// specs/, laws in proofs/.
#![tactic(auto)]

ghost use Rattle.std.specs.Prelude.{◌≡◌, ℕ, suc, ◌+◌, ◌*◌, ◌/◌, ◌%◌, ◌^◌, ◌<◌, ◌≤◌, length, slice_index};
ghost use Rattle.std.proofs.lemmas.List.Edits.{sets};
ghost use Rattle.bitrow.specs.Row.{digit, bit_at, Lowest, word_put};
ghost use Rattle.classes.specs.Classes.{pages};
ghost use Rattle.records.specs.declared.Kind.TheVariants.{Large, Class};
ghost use Rattle.records.specs.Kinds.{zeros, words_of};
ghost use Rattle.records.specs.Lent.{before, after};
ghost use Rattle.blocks.specs.Stores.{put_run, put_slot, LargeRoom};
ghost use Rattle.blocks.specs.Keeps.{Keeps};
ghost use Rattle.blocks.specs.Apart.{Apart};

// Slot s of the run that starts at page g gets the slot bit v.
pub fn put_slot(bits: &[u64], words: &mut [u32], slots: &mut [u64], g: usize, s: usize, v: bool)
    requires low { g < 8192 }
    requires slot { s < 512 }
    requires long { 512 * g + 512 ≤ 64 * length slots.old }
    ensures { after bits.now words.new slots.new ≡ put_slot (digit v) (before bits.now words.old slots.old) g s }
{
    bitrow::put_bit(slots, 512 * g + s, v);
}

// Takes the slot at the lowest 0 bit of slot word i, which has one; answers the word as it is then. One more than the word has its lowest 0
// bit as the lowest 1.
pub fn fill_word(bits: &[u64], words: &mut [u32], slots: &mut [u64], i: usize) -> u64
    requires { i < length slots.old }
    ensures { (g k t : ℕ) → i ≡ 8 * g + k → t < 64 → Lowest 64 (slice_index slots.old i) 0 t
        → (result ≡ word_put 1 (slice_index slots.old i) t) × (after bits.now words.new slots.new ≡ put_slot 1 (before bits.now words.old slots.old) g (64 * k + t)) }
{
    let w = slots[i];
    let v = w | w.wrapping_add(1);
    slots[i] = v;
    v
}

// Gives back the slot at a bit of slot word i, which is 1: `bit` is the word that has this bit alone.
pub fn free_bit(bits: &[u64], words: &mut [u32], slots: &mut [u64], i: usize, bit: u64)
    requires { (i < length slots.old) × (bit ≤ slice_index slots.old i) }
    ensures { (g s : ℕ) → i ≡ 8 * g + s / 64 → bit ≡ 2 ^ (s % 64) → bit_at slots.old (512 * g + s) ≡ 1
        → after bits.now words.new slots.new ≡ put_slot 0 (before bits.now words.old slots.old) g s }
{
    slots[i] = slots[i] - bit;
}

// The words of a run of class b, of n pages, from page g on.
fn class_words(words: &mut [u32], g: usize, b: usize, n: usize)
    requires low { g + n ≤ 8192 }
    requires word { g + n ≤ length words.old }
    requires class { b < 30 }
    requires count { n ≡ pages b }
    ensures { words.new ≡ sets words.old g (words_of (Class b)) }
{
    words[g] = records::class_word(b);
    for k in 1..n {
        words[g + k] = records::inner_word(b, k);
    }
}

// A run of class b at page g.
pub fn put_class(bits: &mut [u64], words: &mut [u32], slots: &[u64], g: usize, b: usize)
    requires class { b < 30 }
    requires low { g + pages b ≤ 8192 }
    requires bit { g + pages b ≤ 64 * length bits.old }
    requires word { g + pages b ≤ length words.old }
    ensures { after bits.new words.new slots.now ≡ put_run 1 (before bits.old words.old slots.now) g (words_of (Class b)) }
{
    let n = usize::from(classes::class_row(b).pages);
    bitrow::put_bits(bits, g, n, true);
    class_words(words, g, b, n);
}

// A large run at page g, with k pages behind it. These have the word 0 already, so only the first is written. This call and `free_large` are two
// lines each: one function for both would take the bit and the word beside their five arguments.
pub fn put_large(bits: &mut [u64], words: &mut [u32], slots: &[u64], g: usize, k: usize)
    requires { LargeRoom g k bits.old words.old }
    ensures { after bits.new words.new slots.now ≡ put_run 1 (before bits.old words.old slots.now) g (words_of (Large k)) }
{
    bitrow::put_bits(bits, g, k + 1, true);
    words[g] = records::large_word(k + 1);
}

// The pages of a large run at page g, with k pages behind it, are free again. Only the first has a word to clear.
pub fn free_large(bits: &mut [u64], words: &mut [u32], slots: &[u64], g: usize, k: usize)
    requires { LargeRoom g k bits.old words.old }
    ensures { after bits.new words.new slots.now ≡ put_run 0 (before bits.old words.old slots.now) g (zeros (suc k)) }
{
    bitrow::put_bits(bits, g, k + 1, false);
    words[g] = 0;
}

// Each store keeps a pool good and puts one block into its live blocks, or takes one out; fresh records hold none.
pub fn stores_keep() -> bool
    ensures { Keeps }
{
    true
}

// The live blocks of a good pool lie apart, inside the pool and off page 0 of each chunk.
pub fn blocks_apart() -> bool
    ensures { Apart }
{
    true
}
