// The line of a call, and the last line of a replay.
#![tactic(auto)]

ghost use Rattle.std.specs.Prelude.{◌+◌, ◌*◌, ◌≤◌, length};
ghost use Rattle.text.specs.Text.{Appends};
ghost use Rattle.events.specs.Doing.{event_bytes};
ghost use Rattle.wording.specs.Wording.{line_of, last_of};

use text::put_filled;

// The line of one call: at most twelve bytes for each byte of its field.
pub fn put_line(out: &mut [u8], at: usize, e: events::Event) -> usize
    requires { at + 12 * event_bytes e ≤ length out.old }
    ensures text { Appends out.old out.new at result (line_of e) }
    ensures room { result ≤ at + 12 * event_bytes e }
{
    match e {
        events::Event::Started(c) => put_filled(out, at, b"pool $\n", &[c]),
        events::Event::Served(n, q, z) => put_filled(
            out,
            at,
            b"reserve $ at $ size $\n",
            &[n, q, z],
        ),
        events::Event::Denied(n, r) => put_filled(out, at, b"reserve $ refused $\n", &[n, r]),
        events::Event::Freed(q) => put_filled(out, at, b"release $ ok\n", &[q]),
        events::Event::Unfreed(q, r) => put_filled(out, at, b"release $ refused $\n", &[q, r]),
        events::Event::Kept(q, n, z) => put_filled(
            out,
            at,
            b"resize $ $ at $ size $ kept\n",
            &[q, n, q, z],
        ),
        events::Event::Moved(q, n, to, z) => put_filled(
            out,
            at,
            b"resize $ $ at $ size $ moved\n",
            &[q, n, to, z],
        ),
        events::Event::Unresized(q, n, r) => put_filled(
            out,
            at,
            b"resize $ $ refused $\n",
            &[q, n, r],
        ),
        events::Event::Ended => at,
    }
}

// The last line.
pub fn put_last(out: &mut [u8], at: usize, refusal: u64, position: u64, t: totals::Sums) -> usize
    requires { at + 60 ≤ length out.old }
    ensures text { Appends out.old out.new at result (last_of refusal position t) }
    ensures room { result ≤ at + 60 }
{
    if refusal == 0 {
        put_filled(out, at, b"live $ free pages $\n", &[t.blocks, t.free])
    } else {
        put_filled(out, at, b"log refused $ at $\n", &[refusal, position])
    }
}
