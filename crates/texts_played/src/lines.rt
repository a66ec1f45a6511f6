// Texts, and the line that is printed of each.
use std::alloc::Global;
use std::fmt;
use std::process::Abort;
use std::test::Fail;
use texts::report::report;

// Whether each text gets a line that begins so, and ends in what stands beside it.
fn all_answered<P: fmt::Display>(
    rt: &(impl Abort + Alloc<A = Global>),
    answer: &str,
    cases: &[(&str, P)],
) -> Result<(), Fail> {
    for (text, end) in cases {
        let line = format!(in rt.alloc(); "{answer}{end}\n")?;
        assert_eq!(rt;
            report(rt.alloc(), text.as_bytes())?.as_str(),
            line.as_str(),
            "{}",
            *text
        );
    }
    Ok(())
}

// Texts that are read whole.
#[test]
fn accepted(rt: HostRuntime) -> Result<(), Fail> {
    let cases = [
        (
            "",
            "policies=0 bads=0 edges=0 quota=none marks=0 nodes=0 defs=0 tariffs=0",
        ),
        (
            "policy=0 states=3 start=0\nbad=0 state=2\nedge=0 from=0 event=5 to=1\n",
            "policies=1 bads=1 edges=1 quota=none marks=0 nodes=0 defs=0 tariffs=0",
        ),
        (
            "quota=0\nmark=0\nmark=255\n",
            "policies=0 bads=0 edges=0 quota=0 marks=2 nodes=0 defs=0 tariffs=0",
        ),
        (
            "quota=6\n",
            "policies=0 bads=0 edges=0 quota=6 marks=0 nodes=0 defs=0 tariffs=0",
        ),
        (
            "node=0 kind=z a=0 b=0\nnode=1 kind=f a=7 b=0\n",
            "policies=0 bads=0 edges=0 quota=none marks=0 nodes=2 defs=0 tariffs=0",
        ),
        (
            "node=0 kind=z a=0 b=0\nnode=1 kind=d a=0 b=0\ndef=0 node=1\n",
            "policies=0 bads=0 edges=0 quota=none marks=0 nodes=2 defs=1 tariffs=0",
        ),
        (
            "tariff=0 cost=1\ntariff=255 cost=4294967295\n",
            "policies=0 bads=0 edges=0 quota=none marks=0 nodes=0 defs=0 tariffs=2",
        ),
    ];
    all_answered(&rt, "accepted ", &cases)
}

// Number 1: the line is that of no record.
#[test]
fn broken_forms(rt: HostRuntime) -> Result<(), Fail> {
    let cases = [
        ("policy=0 states=3 start=0", 0),
        ("policy=0 states=3 start=0\nbad=0 state=2", 26),
        ("policy=0 states=3 start=0\nbad=0  state=2\n", 26),
        ("policy=0 states=3 start=0\n bad=0 state=2\n", 26),
        ("policy=0 states=3 start=0\nbad=0 state=2 \n", 26),
        ("policy=0 states=3 start=0\n\n", 26),
        ("policy=0 states=3 start=0\nbad=0 state=02\n", 26),
        ("policy=0 states=3 start=0\nbad=0 state=\n", 26),
        ("policy=0 states=3 start=0\nbad=0 state=-1\n", 26),
        ("policy=0 states=3 start=0\nbad=0 state=2\r\n", 26),
        ("policy=0 states=3 start=0\ngood=0 state=2\n", 26),
        ("policy=0 states=3 start=0\nbad=0\n", 26),
        ("mark=12345678901\n", 0),
        ("quota=00\n", 0),
        ("node=0 kind=x a=0 b=0\n", 0),
        ("node=0 kind=zz a=0 b=0\n", 0),
        ("node=0 kind= a=0 b=0\n", 0),
        ("node=0 kind=Z a=0 b=0\n", 0),
        ("node=0 kind=z a=1 b=0\n", 0),
        ("node=0 kind=z a=0 b=1\n", 0),
        ("node=0 kind=e a=0 b=1\n", 0),
        ("node=0 kind=d a=0 b=1\n", 0),
    ];
    all_answered(&rt, "refused=1 layer=line place=", &cases)
}

// Number 2: the line's kind is out of order, or a second quota.
#[test]
fn kinds_out_of_order(rt: HostRuntime) -> Result<(), Fail> {
    let cases = [
        (
            "policy=0 states=3 start=0\nbad=0 state=2\npolicy=1 states=3 start=0\n",
            40,
        ),
        (
            "policy=0 states=3 start=0\nedge=0 from=0 event=5 to=1\nbad=0 state=2\n",
            53,
        ),
        ("quota=1\nquota=1\n", 8),
        ("quota=1\nmark=1\nquota=1\n", 15),
        ("node=0 kind=z a=0 b=0\nquota=1\n", 22),
        (
            "node=0 kind=z a=0 b=0\ndef=0 node=0\nnode=1 kind=z a=0 b=0\n",
            35,
        ),
        ("node=0 kind=z a=0 b=0\ntariff=5 cost=1\ndef=0 node=0\n", 38),
    ];
    all_answered(&rt, "refused=2 layer=table place=", &cases)
}

// Number 2: the line's numbers are out of order.
#[test]
fn numbers_out_of_order(rt: HostRuntime) -> Result<(), Fail> {
    let cases = [
        ("policy=1 states=3 start=0\n", 0),
        ("policy=0 states=3 start=0\npolicy=0 states=3 start=0\n", 26),
        (
            "policy=0 states=3 start=0\nbad=0 state=2\nbad=0 state=2\n",
            40,
        ),
        (
            "policy=0 states=3 start=0\nbad=0 state=2\nbad=0 state=1\n",
            40,
        ),
        (
            "policy=0 states=3 start=0\nedge=0 from=0 event=5 to=1\nedge=0 from=0 event=5 to=2\n",
            53,
        ),
        (
            "policy=0 states=3 start=0\nedge=0 from=1 event=5 to=1\nedge=0 from=0 event=6 to=2\n",
            53,
        ),
        ("quota=1\nmark=1\nmark=1\n", 15),
        ("quota=1\nmark=2\nmark=1\n", 15),
        ("node=0 kind=z a=0 b=0\nnode=0 kind=z a=0 b=0\n", 22),
        ("node=1 kind=z a=0 b=0\n", 0),
        ("node=0 kind=z a=0 b=0\ndef=1 node=0\n", 22),
        ("tariff=5 cost=1\ntariff=5 cost=2\n", 16),
        ("tariff=5 cost=1\ntariff=4 cost=2\n", 16),
    ];
    all_answered(&rt, "refused=2 layer=table place=", &cases)
}

// Number 3: a number passes its limit.
#[test]
fn out_of_limits(rt: HostRuntime) -> Result<(), Fail> {
    let cases = [
        ("policy=0 states=9 start=0\n", 0),
        ("policy=0 states=0 start=0\n", 0),
        ("policy=0 states=8 start=8\n", 0),
        ("policy=0 states=3 start=0\nbad=8 state=0\n", 26),
        ("policy=0 states=3 start=0\nbad=0 state=8\n", 26),
        (
            "policy=0 states=3 start=0\nedge=8 from=0 event=5 to=1\n",
            26,
        ),
        (
            "policy=0 states=3 start=0\nedge=0 from=8 event=5 to=1\n",
            26,
        ),
        (
            "policy=0 states=3 start=0\nedge=0 from=0 event=256 to=1\n",
            26,
        ),
        (
            "policy=0 states=3 start=0\nedge=0 from=0 event=5 to=8\n",
            26,
        ),
        ("quota=7\n", 0),
        ("quota=1\nmark=256\n", 8),
        ("mark=9999999999\n", 0),
        ("node=0 kind=e a=256 b=0\n", 0),
        ("node=0 kind=d a=32 b=0\n", 0),
        ("node=0 kind=z a=0 b=0\nnode=1 kind=s a=128 b=0\n", 22),
        ("node=0 kind=z a=0 b=0\nnode=1 kind=c a=0 b=128\n", 22),
        ("node=0 kind=z a=0 b=0\nnode=1 kind=f a=8 b=0\n", 22),
        ("node=0 kind=z a=0 b=0\nnode=1 kind=f a=0 b=128\n", 22),
        ("node=0 kind=z a=0 b=0\ndef=0 node=128\n", 22),
        ("tariff=256 cost=1\n", 0),
        ("tariff=5 cost=0\n", 0),
        ("tariff=5 cost=4294967296\n", 0),
    ];
    all_answered(&rt, "refused=3 layer=table place=", &cases)
}

// Number 4: what is named is not there.
#[test]
fn not_there(rt: HostRuntime) -> Result<(), Fail> {
    let cases = [
        ("policy=0 states=3 start=3\n", 0),
        ("bad=0 state=0\n", 0),
        ("policy=0 states=3 start=0\nbad=1 state=0\n", 26),
        ("policy=0 states=3 start=0\nbad=0 state=3\n", 26),
        (
            "policy=0 states=3 start=0\nedge=1 from=0 event=5 to=1\n",
            26,
        ),
        (
            "policy=0 states=3 start=0\nedge=0 from=3 event=5 to=1\n",
            26,
        ),
        (
            "policy=0 states=3 start=0\nedge=0 from=0 event=5 to=3\n",
            26,
        ),
        ("mark=5\n", 0),
        ("node=0 kind=s a=0 b=0\n", 0),
        ("node=0 kind=z a=0 b=0\nnode=1 kind=s a=1 b=0\n", 22),
        ("node=0 kind=z a=0 b=0\nnode=1 kind=c a=0 b=1\n", 22),
        ("node=0 kind=f a=0 b=0\n", 0),
        ("node=0 kind=z a=0 b=0\ndef=0 node=1\n", 22),
        ("node=0 kind=d a=0 b=0\n", 0),
        (
            "node=0 kind=z a=0 b=0\nnode=1 kind=d a=1 b=0\nnode=2 kind=d a=31 b=0\ndef=0 node=2\n",
            22,
        ),
        (
            "node=0 kind=z a=0 b=0\nnode=1 kind=d a=1 b=0\ndef=0 node=0\ntariff=5 cost=1\n",
            22,
        ),
    ];
    all_answered(&rt, "refused=4 layer=table place=", &cases)
}

// A line that breaks several rules gets the first of them.
#[test]
fn first_rule(rt: HostRuntime) -> Result<(), Fail> {
    all_answered(
        &rt,
        "refused=2 layer=table place=",
        &[("policy=9 states=9 start=9\n", 0)],
    )?;
    all_answered(
        &rt,
        "refused=3 layer=table place=",
        &[
            ("policy=0 states=9 start=9\n", 0),
            ("node=0 kind=s a=200 b=0\n", 0),
            ("policy=0 states=3 start=0\nbad=7 state=8\n", 26),
        ],
    )?;
    all_answered(
        &rt,
        "refused=1 layer=line place=",
        &[
            ("node=0 kind=z a=1 b=200\n", 0),
            ("node=0 kind=d a=5 b=0\nbad=0\n", 22),
        ],
    )
}
