// Layers and reports as text.
ghost use Rattle.std.specs.Prelude.{Some};
ghost use Rattle.wire.specs.Layers.{layer_name, report_text};

use crate::report::{Layer, Report};
use std::fmt;

impl fmt::Display for Layer {
    ghost output = { λ layer. Some (layer_name layer) };

    fn fmt<W: fmt::Write>(&self, f: &mut fmt::Formatter<W>) -> fmt::Result {
        f.write_str(match self {
            Layer::Reader => "reader",
            Layer::Path => "path",
            Layer::Roots => "roots",
        })
    }
}

impl fmt::Display for Report {
    ghost output = { λ report. Some (report_text report) };

    fn fmt<W: fmt::Write>(&self, f: &mut fmt::Formatter<W>) -> fmt::Result {
        write!(f, "{} {} {}", self.number, self.layer, self.place)
    }
}
