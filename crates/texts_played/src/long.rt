// Long texts: as many lines and bytes as there may be, and one more.
use std::alloc::Global;
use std::process::Abort;
use std::test::Fail;
use texts::report::report;

fn play(rt: &(impl Abort + Alloc<A = Global>), text: &String, line: &str) -> Result<(), Fail> {
    assert_eq!(rt; report(rt.alloc(), text.as_bytes())?.as_str(), line);
    Ok(())
}

// Edges of policy 0, 64 for each of its eight states.
fn edges(heap: Global) -> Result<String, Fail> {
    let mut text = String::from_str(heap, "policy=0 states=8 start=0\n")?;
    for from in 0u8..8 {
        for event in 0u8..64 {
            text.push_str(format!(in heap; "edge=0 from={from} event={event} to=7\n")?.as_str())?;
        }
    }
    Ok(text)
}

// Whether the text is accepted with these counts, and refused for a limit at one line more.
fn play_limit(
    rt: &(impl Abort + Alloc<A = Global>),
    mut text: String,
    counts: &str,
    line: &str,
) -> Result<(), Fail> {
    play(
        rt,
        &text,
        format!(in rt.alloc(); "accepted {counts}\n")?.as_str(),
    )?;
    let place = text.len();
    text.push_str(line)?;
    play(
        rt,
        &text,
        format!(in rt.alloc(); "refused=3 layer=table place={place}\n")?.as_str(),
    )
}

#[test]
fn the_513th_edge(rt: HostRuntime) -> Result<(), Fail> {
    play_limit(
        &rt,
        edges(rt.alloc())?,
        "policies=1 bads=0 edges=512 quota=none marks=0 nodes=0 defs=0 tariffs=0",
        "edge=0 from=7 event=64 to=7\n",
    )
}

// So many empty nodes, and so many definitions of the first.
fn table(heap: Global, nodes: u8, defs: u8) -> Result<String, Fail> {
    let mut text = String::new(heap);
    for node in 0..nodes {
        text.push_str(format!(in heap; "node={node} kind=z a=0 b=0\n")?.as_str())?;
    }
    for def in 0..defs {
        text.push_str(format!(in heap; "def={def} node=0\n")?.as_str())?;
    }
    Ok(text)
}

#[test]
fn the_129th_node(rt: HostRuntime) -> Result<(), Fail> {
    play_limit(
        &rt,
        table(rt.alloc(), 128, 0)?,
        "policies=0 bads=0 edges=0 quota=none marks=0 nodes=128 defs=0 tariffs=0",
        "node=128 kind=z a=0 b=0\n",
    )
}

#[test]
fn the_33rd_definition(rt: HostRuntime) -> Result<(), Fail> {
    play_limit(
        &rt,
        table(rt.alloc(), 1, 32)?,
        "policies=0 bads=0 edges=0 quota=none marks=0 nodes=1 defs=32 tariffs=0",
        "def=32 node=0\n",
    )
}

#[test]
fn the_65537th_byte(rt: HostRuntime) -> Result<(), Fail> {
    let mut text = edges(rt.alloc())?;
    let place = text.len();
    text.push_str("edge=")?;
    for _ in text.len()..65536 {
        text.push('9')?;
    }
    assert_eq!(rt; text.len(), 65536);
    play(
        &rt,
        &text,
        format!(in rt.alloc(); "refused=1 layer=line place={place}\n")?.as_str(),
    )?;
    text.push('9')?;
    play(&rt, &text, "refused=3 layer=table place=65536\n")
}
