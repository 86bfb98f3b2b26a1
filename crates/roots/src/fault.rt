// Why a printed list is turned away.
ghost use Rattle.std.specs.Prelude.{◌≡◌};
ghost use Rattle.roots.specs.Faults.{list_report, print_number};

use wire::{Layer, Report};

// Why bytes are no printed list, in the order of the tests.
#[derive(Clone, Copy, Debug, PartialEq, Eq)]
pub enum ListFault {
    Short = 90,
    Mark = 91,
    Version = 92,
    Hash = 93,
    Size = 94,
    Seconds = 95,
}

impl From<ListFault> for Report {
    ghost from_gives = { λ fault report. report ≡ list_report fault };

    // The fault as it is told.
    fn from(fault: ListFault) -> Report
        ensures { result ≡ list_report fault }
    {
        Report {
            number: fault as u8,
            layer: Layer::Roots,
            place: 0,
        }
    }
}

// Why a list is not printed, in the order of the tests.
#[derive(Clone, Copy, Debug, PartialEq, Eq)]
pub enum PrintRefusal {
    Count = 94,
    Seconds = 95,
    Short = 44,
}

impl PrintRefusal {
    // The refusal's number in the rule book. No trait: each impl would have this body, and each contract cites a table of its own.
    pub fn number(self) -> u8
        ensures { result ≡ print_number self }
    {
        self as u8
    }
}
