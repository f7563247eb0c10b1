// The reply: of a refusal, and of a run.
ghost use Rattle.std.specs.Prelude.{◌≡◌};
ghost use Rattle.arbitration_rules.specs.Reply.{refused as refused_reply};
ghost use Rattle.arbitration.specs.Prepared.{replied_by};

use arbitration_rules::{Arbitrated, MAX_MASTERS, Seat};
use arbitration_run::Sequencer;
use laws::Refusal;

// A refused reply: nobody is in.
pub(crate) fn refused(refusal: Refusal) -> Arbitrated
    ensures { result ≡ refused_reply refusal }
{
    let empty = Seat {
        contending: false,
        position: 0,
        cleared: 0,
    };
    Arbitrated {
        refusal,
        count: 0,
        seats: [empty; MAX_MASTERS],
    }
}

// The reply of a run of so many masters.
pub(crate) fn answered(sequencer: Sequencer, count: usize) -> Arbitrated
    ensures { result ≡ replied_by sequencer count }
{
    let members = sequencer.members;
    let seats = members.seats(count);
    Arbitrated {
        refusal: Refusal {
            number: 0,
            place: 0,
        },
        count: sequencer.sent,
        seats,
    }
}
