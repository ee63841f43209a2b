// The event table: what each kind's row says beside its needs and its effect (document 01, "Events").
ghost use Rattle.std.specs.Prelude.{◌≡◌};
ghost use Rattle.rules.specs.Table.{kind_of, row};
ghost use Rattle.rules.specs.declared.kinds.Other.TheVariants.{NoOther};
ghost use Rattle.rules.specs.declared.kinds.Value.TheVariants.{NoValue};
ghost use Rattle.rules.specs.declared.kinds.End.TheVariants.{Own};
ghost use Rattle.rules.specs.declared.kinds.Probes.TheVariants.{Stay};
ghost use Rattle.rules.specs.declared.kinds.Settles.TheVariants.{Never};

use rules::Event;
use rules::kinds::{End, Other, Place, Probes, Row, Settles, Value};

// The row of a kind that says no more than its place.
fn plain(place: Place) -> Row
    ensures { result ≡ row place NoOther NoValue Own Stay Never }
{
    Row {
        place,
        other: Other::NoOther,
        value: Value::NoValue,
        end: End::Own,
        probes: Probes::Stay,
        settles: Settles::Never,
    }
}

// The row of the kind; no kind has the row of no_kind.
#[tactic(auto, unfolding(rules::specs::Table::numbered, words::specs::Vocab::choose))]
pub fn row_of(kind: u8) -> Row
    ensures { result ≡ (kind_of kind).row }
{
    match kind {
        Event::LOAD => plain(Place::AtLeaf),
        Event::STORE => Row {
            value: Value::AnyValue,
            ..plain(Place::AtLeaf)
        },
        Event::LOAD_MISS => plain(Place::AtLeaf),
        Event::STORE_MISS => plain(Place::AtLeaf),
        Event::EVICT => Row {
            probes: Probes::Held,
            settles: Settles::Anew,
            ..plain(Place::BelowRoot)
        },
        Event::SEND_ACQUIRE => plain(Place::BelowRoot),
        Event::TAKE_ACQUIRE => Row {
            other: Other::AChild,
            end: End::Named,
            probes: Probes::Asked,
            settles: Settles::Anew,
            ..plain(Place::Anywhere)
        },
        Event::SEND_PROBE => Row {
            other: Other::AChild,
            end: End::Named,
            ..plain(Place::Anywhere)
        },
        Event::TAKE_PROBE => Row {
            probes: Probes::Capped,
            ..plain(Place::BelowRoot)
        },
        Event::SEND_PROBE_ACK => plain(Place::BelowRoot),
        Event::TAKE_PROBE_ACK => Row {
            other: Other::AChild,
            end: End::Named,
            settles: Settles::Again,
            ..plain(Place::Anywhere)
        },
        Event::TAKE_GRANT => plain(Place::BelowRoot),
        Event::SEND_GRANT_ACK => plain(Place::BelowRoot),
        Event::SEND_GRANT => Row {
            other: Other::AChoice,
            end: End::Requester,
            ..plain(Place::AboveLeaf)
        },
        Event::TAKE_GRANT_ACK => Row {
            end: End::Requester,
            ..plain(Place::AboveLeaf)
        },
        Event::SEND_RELEASE => plain(Place::BelowRoot),
        Event::TAKE_RELEASE => Row {
            other: Other::AChild,
            end: End::Named,
            settles: Settles::Again,
            ..plain(Place::Anywhere)
        },
        Event::SEND_RELEASE_ACK => Row {
            end: End::Noted,
            ..plain(Place::AboveLeaf)
        },
        Event::TAKE_RELEASE_ACK => plain(Place::BelowRoot),
        _ => plain(Place::Anywhere),
    }
}
