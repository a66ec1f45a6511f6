// Plays some makings of tables.
#![tactic(auto)]

ghost use Rattle.std.specs.Prelude.{◌≡◌};

#[cfg(test)]
mod tests {
    use jobs::node::Node;
    use jobs::table::Table;
    use records::fault::{Layer, Refusal, refused};
    use records::record::{DefRecord, Kind, NodeRecord};
    use std::array;
    use std::test::Fail;

    const EMPTY: NodeRecord = NodeRecord {
        node: 0,
        kind: Kind::Empty,
        a: 0,
        b: 0,
    };

    const EVENT: NodeRecord = NodeRecord {
        node: 0,
        kind: Kind::Event,
        a: 5,
        b: 0,
    };

    const JOB: DefRecord = DefRecord { def: 0, node: 0 };

    fn node(n: u64, kind: Kind, a: u64, b: u64) -> NodeRecord
        ensures { result ≡ record { node = n; kind = kind; a = a; b = b } }
    {
        NodeRecord {
            node: n,
            kind,
            a,
            b,
        }
    }

    const TABLE: Layer = Layer::Table;

    #[test]
    fn accepted(rt: HostRuntime) -> Result<(), Fail> {
        let nodes = [
            EVENT,
            node(1, Kind::Frame, 7, 0),
            node(2, Kind::Seq, 1, 0),
            node(3, Kind::Choice, 0, 2),
            node(4, Kind::Call, 1, 999),
            node(5, Kind::Empty, 999, 999),
        ];
        let defs = [DefRecord { def: 0, node: 3 }, DefRecord { def: 1, node: 4 }];
        let table = Table::from_records(rt.alloc(), &nodes, &defs)?;
        assert_eq!(rt; table.node_count(), 6);
        assert_eq!(rt; table.def_count(), 2);
        assert_eq!(rt; table.node(0), Some(Node::Event(5)));
        assert_eq!(rt; table.node(1), Some(Node::Frame(7, 0)));
        assert_eq!(rt; table.node(2), Some(Node::Seq(1, 0)));
        assert_eq!(rt; table.node(3), Some(Node::Choice(0, 2)));
        assert_eq!(rt; table.node(4), Some(Node::Call(1)));
        assert_eq!(rt; table.node(5), Some(Node::Empty));
        assert_eq!(rt; table.node(6), None);
        assert_eq!(rt; table.body(1), Some(4));
        assert_eq!(rt; table.body(2), None);
        Ok(())
    }

    #[test]
    fn without_jobs(rt: HostRuntime) -> Result<(), Fail> {
        let table = Table::from_records(rt.alloc(), &[], &[])?;
        assert_eq!(rt; table.node(0), None);
        assert_eq!(rt; table.body(0), None);
        Ok(())
    }

    #[test]
    fn out_of_order(rt: HostRuntime) {
        let nodes = [
            EMPTY,
            node(1, Kind::Empty, 0, 0),
            node(3, Kind::Empty, 0, 0),
        ];
        assert_eq!(rt;
            refused(&Table::from_records(rt.alloc(), &nodes, &[])),
            Some(Refusal::new(2, TABLE, 2))
        );
        assert_eq!(rt;
            refused(&Table::from_records(rt.alloc(), &[EMPTY], &[JOB, JOB])),
            Some(Refusal::new(2, TABLE, 1))
        );
    }

    #[test]
    fn past_a_limit(rt: HostRuntime) {
        assert_eq!(rt;
            refused(&Table::from_records(rt.alloc(), &[EMPTY, node(1, Kind::Event, 256, 0)], &[])),
            Some(Refusal::new(3, TABLE, 1))
        );
        assert_eq!(rt;
            refused(&Table::from_records(rt.alloc(), &[EMPTY, node(1, Kind::Choice, 0, 128)], &[])),
            Some(Refusal::new(3, TABLE, 1))
        );
        assert_eq!(rt;
            refused(&Table::from_records(rt.alloc(), &[EMPTY, node(1, Kind::Frame, 8, 0)], &[])),
            Some(Refusal::new(3, TABLE, 1))
        );
        assert_eq!(rt;
            refused(&Table::from_records(rt.alloc(), &[node(0, Kind::Call, 32, 0)], &[])),
            Some(Refusal::new(3, TABLE, 0))
        );
        assert_eq!(rt;
            refused(&Table::from_records(rt.alloc(), &[EMPTY], &[DefRecord { def: 0, node: 128 }])),
            Some(Refusal::new(3, TABLE, 0))
        );
    }

    #[test]
    fn too_many(rt: HostRuntime) {
        let nodes: [NodeRecord; 129] = array::from_fn(|n| node(n as u64, Kind::Empty, 0, 0));
        let defs: [DefRecord; 33] = array::from_fn(|d| DefRecord {
            def: d as u64,
            node: 0,
        });
        assert_eq!(rt;
            refused(&Table::from_records(rt.alloc(), &nodes, &[])),
            Some(Refusal::new(3, TABLE, 128))
        );
        assert_eq!(rt;
            refused(&Table::from_records(rt.alloc(), &nodes[0..128], &defs)),
            Some(Refusal::new(3, TABLE, 32))
        );
        assert_eq!(rt;
            refused(&Table::from_records(rt.alloc(), &nodes[0..128], &defs[0..32])),
            None
        );
    }

    #[test]
    fn not_there(rt: HostRuntime) {
        assert_eq!(rt;
            refused(&Table::from_records(rt.alloc(), &[EVENT, node(1, Kind::Seq, 0, 1)], &[])),
            Some(Refusal::new(4, TABLE, 1))
        );
        assert_eq!(rt;
            refused(&Table::from_records(
                rt.alloc(),
                &[EVENT],
                &[JOB, DefRecord { def: 1, node: 1 }],
            )),
            Some(Refusal::new(4, TABLE, 1))
        );
        assert_eq!(rt;
            refused(&Table::from_records(rt.alloc(), &[node(0, Kind::Call, 1, 0)], &[JOB])),
            Some(Refusal::new(4, TABLE, 0))
        );
        let calls = [
            EMPTY,
            node(1, Kind::Call, 0, 0),
            node(2, Kind::Call, 2, 0),
            node(3, Kind::Call, 1, 0),
        ];
        assert_eq!(rt;
            refused(&Table::from_records(rt.alloc(), &calls, &[JOB])),
            Some(Refusal::new(4, TABLE, 2))
        );
    }

    // A node comes before a definition, and a definition before a call.
    #[test]
    fn first_break(rt: HostRuntime) {
        let calls = [node(0, Kind::Call, 9, 0), node(1, Kind::Event, 256, 0)];
        assert_eq!(rt;
            refused(&Table::from_records(rt.alloc(), &calls, &[JOB, JOB])),
            Some(Refusal::new(3, TABLE, 1))
        );
        assert_eq!(rt;
            refused(&Table::from_records(rt.alloc(), &calls[0..1], &[JOB, JOB])),
            Some(Refusal::new(2, TABLE, 1))
        );
        assert_eq!(rt;
            refused(&Table::from_records(rt.alloc(), &calls[0..1], &[JOB])),
            Some(Refusal::new(4, TABLE, 0))
        );
    }
}
