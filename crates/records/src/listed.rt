// Records of the kinds that a text may have many of.
ghost use Rattle.std.specs.Prelude.{◌≡◌, List};
ghost use Rattle.records.specs.Rules.{Records, held};
ghost use Rattle.records.specs.declared.record.Kind.TheVariants as kind;
ghost use Rattle.records.specs.declared.record.Line.{Line as LineOf};
ghost use Rattle.records.specs.declared.record.Line.TheVariants as line;

use crate::record::{
    BadRecord, DefRecord, EdgeRecord, Line, MarkRecord, NodeRecord, PolicyRecord, Sofar,
    TariffRecord,
};

// A record has its line, and its place among the records so far. The seven impls are written out, since a macro holds no ghost item.
pub trait Record: Copy {
    ghost line: { Self → LineOf };

    ghost among: { Records → List Self → Records };

    ghost blank: { Self };

    // The line of this record.
    fn line(self) -> Line
        ensures { result ≡ line self };

    // The records so far, with these as those of this kind.
    fn among<'a>(sofar: Sofar<'a>, these: &'a [Self]) -> Sofar<'a>
        ensures { held result ≡ among (held sofar.entry) these.now };
}

impl Record for PolicyRecord {
    ghost line = { line.Policy };

    ghost among = { λ rs these. record rs { policies = these } };

    ghost blank = { record { policy = 0; states = 0; start = 0 } };

    fn line(self) -> Line {
        Line::Policy(self)
    }

    fn among<'a>(sofar: Sofar<'a>, policies: &'a [PolicyRecord]) -> Sofar<'a> {
        Sofar { policies, ..sofar }
    }
}

impl Record for BadRecord {
    ghost line = { line.Bad };

    ghost among = { λ rs these. record rs { bads = these } };

    ghost blank = { record { policy = 0; state = 0 } };

    fn line(self) -> Line {
        Line::Bad(self)
    }

    fn among<'a>(sofar: Sofar<'a>, bads: &'a [BadRecord]) -> Sofar<'a> {
        Sofar { bads, ..sofar }
    }
}

impl Record for EdgeRecord {
    ghost line = { line.Edge };

    ghost among = { λ rs these. record rs { edges = these } };

    ghost blank = { record { policy = 0; from = 0; event = 0; to = 0 } };

    fn line(self) -> Line {
        Line::Edge(self)
    }

    fn among<'a>(sofar: Sofar<'a>, edges: &'a [EdgeRecord]) -> Sofar<'a> {
        Sofar { edges, ..sofar }
    }
}

impl Record for MarkRecord {
    ghost line = { line.Mark };

    ghost among = { λ rs these. record rs { marks = these } };

    ghost blank = { record { event = 0 } };

    fn line(self) -> Line {
        Line::Mark(self)
    }

    fn among<'a>(sofar: Sofar<'a>, marks: &'a [MarkRecord]) -> Sofar<'a> {
        Sofar { marks, ..sofar }
    }
}

impl Record for NodeRecord {
    ghost line = { line.Node };

    ghost among = { λ rs these. record rs { nodes = these } };

    ghost blank = { record { node = 0; kind = kind.Empty; a = 0; b = 0 } };

    fn line(self) -> Line {
        Line::Node(self)
    }

    fn among<'a>(sofar: Sofar<'a>, nodes: &'a [NodeRecord]) -> Sofar<'a> {
        Sofar { nodes, ..sofar }
    }
}

impl Record for DefRecord {
    ghost line = { line.Def };

    ghost among = { λ rs these. record rs { defs = these } };

    ghost blank = { record { def = 0; node = 0 } };

    fn line(self) -> Line {
        Line::Def(self)
    }

    fn among<'a>(sofar: Sofar<'a>, defs: &'a [DefRecord]) -> Sofar<'a> {
        Sofar { defs, ..sofar }
    }
}

impl Record for TariffRecord {
    ghost line = { line.Tariff };

    ghost among = { λ rs these. record rs { tariffs = these } };

    ghost blank = { record { event = 0; cost = 0 } };

    fn line(self) -> Line {
        Line::Tariff(self)
    }

    fn among<'a>(sofar: Sofar<'a>, tariffs: &'a [TariffRecord]) -> Sofar<'a> {
        Sofar { tariffs, ..sofar }
    }
}
