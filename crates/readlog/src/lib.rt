// The log that an input gives, replayed in a pool of one chunk. The first 16,384 bytes are read; the rest counts as missing, and so does
// what stands behind a read that fails.
#![tactic(auto)]

ghost use Rattle.std.specs.Prelude.{◌≡◌};
ghost use Rattle.records.specs.Lent.{before, after};
ghost use Rattle.records.specs.Calls.{leaves, fresh_of};
ghost use Rattle.replay.specs.Run.{replay_of};
ghost use Rattle.readlog.specs.Input.{FromLog, FromInput};

use std::io::Read;

// The pool is fresh before its replay: a log without an accepted start leaves it so.
fn replay_fresh(
    bits: &mut [u64],
    words: &mut [u32],
    slots: &mut [u64],
    log: &[u8],
) -> replay::Replayed
    ensures { leaves result (after bits.new words.new slots.new) ≡ replay_of 1 (fresh_of 1 (before bits.old words.old slots.old)).left log.now }
{
    fresh::fresh(1, bits, words, slots);
    replay::replay(1, bits, words, slots, log)
}

// A line on standard error tells of a refusal; one that cannot be written is left out.
fn tell(errors: &impl Eprint, r: replay::Replayed) {
    if r.refusal == 0 {
        return;
    }
    let _ = eprintln!(errors;
        "log refused {} at {}, drawn as it stood",
        r.refusal, r.position
    );
}

// The pool after it: what the fields before a refused one did stands.
pub fn replay_input<R: Read, E: Eprint>(
    input: &mut R,
    errors: &E,
    bits: &mut [u64],
    words: &mut [u32],
    slots: &mut [u64],
)
    ensures from_log { FromLog (before bits.old words.old slots.old) (after bits.new words.new slots.new) }
    ensures from_input { FromInput (R.remaining input.old) (R.remaining input.new)
        (before bits.old words.old slots.old) (after bits.new words.new slots.new) }
{
    let mut log = [0u8; 16384];
    let (n, _) = streams::read_full(input, &mut log);
    let r = replay_fresh(bits, words, slots, &log[..n]);
    tell(errors, r);
}
