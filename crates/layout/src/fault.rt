// Why bytes are no token.
ghost use Rattle.std.specs.Prelude.{◌≡◌};
ghost use Rattle.layout.specs.Faults.{fault_report};

use wire::{Layer, Report};

// The two lengths are those that were given; the place is that of the first bad side.
#[derive(Clone, Copy, Debug, PartialEq, Eq)]
pub enum Fault {
    Short(usize),
    Mark,
    Version,
    Hash,
    RoundCount,
    CalendarCount,
    Length(usize),
    Side(usize),
    Publication,
    Second,
}

impl From<Fault> for Report {
    ghost from_gives = { λ fault report. report ≡ fault_report fault };

    // The fault's number, its layer and its place. Some variants hold a value, so `as` gives no number.
    fn from(fault: Fault) -> Report
        ensures { result ≡ fault_report fault }
    {
        let (number, place) = match fault {
            Fault::Short(length) => (60, length),
            Fault::Mark => (61, 0),
            Fault::Version => (62, 3),
            Fault::Hash => (63, 5),
            Fault::RoundCount => (64, 46),
            Fault::CalendarCount => (65, 47),
            Fault::Length(length) => (66, length),
            Fault::Side(place) => (67, place),
            Fault::Publication => (68, 42),
            Fault::Second => (69, 38),
        };
        Report {
            number,
            layer: Layer::Reader,
            place,
        }
    }
}
