// A table of modules, one for each message: a pass over it, and a run.
ghost use Rattle.std.specs.Prelude.{◌≡◌, ◌≤◌, length};
ghost use Rattle.arbitration_rules.specs.Limits.{max_masters};
ghost use Rattle.arbitration_pass.specs.Pass.{passed, seen as seen_by};
ghost use Rattle.arbitration.specs.Steps.{Makes};
ghost use Rattle.arbitration_turns.specs.Turns.{Reached};

use arbitration_pass::{Pass, Seen};
use arbitration_rules::{MAX_LENGTH, MAX_MASTERS};
use arbitration_run::Sequencer;
use usi::Usi;

// Each of the first count modules makes a step, in its turn; what they then show.
fn step_each<F: Fn(Usi, usize) -> Usi>(table: &mut [Usi], count: usize, step: F) -> Seen
    requires few { (count ≤ max_masters) × (count ≤ length table.old) }
    requires steps { F.IsAlwaysCallable step }
    ensures { (pass : Pass) → Makes pass (F.post step)
        → (result ≡ seen_by count (passed count pass table.old))
        × (table.new ≡ passed count pass table.old) }
{
    let mut seen = arbitration_pass::unseen();
    for i in 0..count {
        let usi = step(table[i], i);
        table[i] = usi;
        seen = arbitration_pass::noted(seen, usi, i);
    }
    seen
}

// The first count modules make a pass: they sample the wire or write their registers, and perhaps tick; what they then
// show.
fn step_all(table: &mut [Usi], count: usize, pass: Pass) -> Seen
    requires { (count ≤ max_masters) × (count ≤ length table.old) }
    ensures { (table.new ≡ passed count pass table.old)
        × (result ≡ seen_by count (passed count pass table.old)) }
{
    if pass.samples() {
        let sampling = pass.sampling();
        step_each(
            table,
            count,
            |usi, _| arbitration_pass::sampled(usi, sampling),
        )
    } else {
        step_each(
            table,
            count,
            |usi, i| arbitration_pass::wrote_at(usi, pass, i),
        )
    }
}

// Passes over the first count modules, and what the sequencer makes of each, until it runs no more; the bytes to send
// are taken from the rows.
pub(crate) fn run(
    table: &mut [Usi],
    count: usize,
    mut sequencer: Sequencer,
    rows: [[u16; MAX_LENGTH]; MAX_MASTERS],
    acks: &[u8],
    carried: &mut [u8],
    levels: &mut [u8],
) -> Sequencer
    requires { (count ≤ max_masters) × (count ≤ length table.old) }
    ensures { Reached count rows acks.now
        (record {
          sequencer = sequencer;
          table = table.old;
          carried = carried.old;
          levels = levels.old;
        })
        (record {
          sequencer = result;
          table = table.new;
          carried = carried.new;
          levels = levels.new;
        }) }
{
    while sequencer.running {
        if sequencer.loading {
            sequencer = sequencer.loaded(rows);
        }
        let pass = sequencer.pass();
        let seen = step_all(table, count, pass);
        sequencer = sequencer.next(seen, acks, carried, levels);
    }
    sequencer
}
