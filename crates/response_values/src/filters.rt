//! Rules of packet filters.
use crate::known::Known;
use tailcfg::{DestRange, FilterRule, Sources};

impl Known for DestRange {
    ghost use Rattle.response_values.specs.Filters.{IsTypedDest};

    ghost Typed = { IsTypedDest };

    fn known(&self) {
        self.to.known();
        let _first = self.ports.first;
        let _last = self.ports.last;
    }
}

impl Known for Sources {
    ghost use Rattle.response_values.specs.Filters.{AreTypedSources};

    ghost Typed = { AreTypedSources };

    fn known(&self) {
        match self {
            Sources::Any => (),
            Sources::Only(prefixes) => prefixes.known(),
        }
    }
}

impl Known for FilterRule {
    ghost use Rattle.response_values.specs.Filters.{IsTypedRule};

    ghost Typed = { IsTypedRule };

    fn known(&self) {
        self.sources.known();
        self.dests.known();
        self.protos.known();
    }
}
