ghost use Rattle.std.specs.Prelude.{◌≡◌, ◌<◌, ◌^◌, IfOk, length};
ghost use Rattle.std.specs.List.{All};

use crate::{Node, Tree, build};
use std::alloc::{AllocError, Global};
use std::process::Abort;
use std::test::Fail;
use wide_num::List;

// The marks of scenarios at three stages.
fn marks(alloc: Global, rows: &[[u32; 3]]) -> Result<List<List<u32>>, AllocError>
    ensures marked { IfOk result (λ owners. All (λ marks. length marks ≡ 3) owners) }
    ensures many { IfOk result (λ owners. length owners ≡ length rows.now) }
{
    let mut owners = List::new(alloc);
    for [first, second, third] in rows {
        let mut own = List::new(alloc);
        own.push(*first)?;
        own.push(*second)?;
        own.push(*third)?;
        owners.push(own)?;
    }
    Ok(owners)
}

// The tree of marks at three stages.
fn tree(alloc: Global, rows: &[[u32; 3]; 3]) -> Result<Tree, AllocError>
    ensures { IfOk result (λ tree. length tree.nodes < 2 ^ 32) }
{
    build(alloc, 3, &marks(alloc, rows)?)
}

// The nodes as text: stage, colon, scenarios.
fn text(alloc: Global, nodes: &[Node]) -> Result<String, AllocError> {
    let mut all = String::new(alloc);
    for node in nodes {
        all = format!(in alloc; "{all}{}:{:?} ", node.stage, node.scenarios.as_slice())?;
    }
    Ok(all)
}

#[test]
fn nodes_by_marks(rt: HostRuntime) -> Result<(), Fail> {
    let alloc = rt.alloc();
    // The first two scenarios share two stages, the third one the first alone.
    let parents = tree(alloc, &[[9, 0, 0], [9, 0, 1], [9, 2, 2]])?;
    assert_eq!(rt;
        text(alloc, parents.nodes.as_slice())?.as_str(),
        "1:[0, 1, 2] 2:[0, 1] 2:[2] 3:[0] 3:[1] 3:[2] "
    );
    // The first and the last share the second stage.
    let crossed = tree(alloc, &[[0, 7, 1], [0, 8, 2], [0, 7, 3]])?;
    assert_eq!(rt;
        text(alloc, crossed.nodes.as_slice())?.as_str(),
        "1:[0, 1, 2] 2:[0, 2] 2:[1] 3:[0] 3:[1] 3:[2] "
    );
    let apart = tree(alloc, &[[2, 5, 0], [1, 4, 0], [0, 3, 1]])?;
    assert_eq!(rt;
        text(alloc, apart.nodes.as_slice())?.as_str(),
        "1:[0] 1:[1] 1:[2] 2:[0] 2:[1] 2:[2] 3:[0, 1] 3:[2] "
    );
    Ok(())
}

#[test]
fn numbers_of_nodes(rt: HostRuntime) -> Result<(), Fail> {
    let alloc = rt.alloc();
    let parents = tree(alloc, &[[9, 0, 0], [9, 0, 1], [9, 2, 2]])?;
    for (scenario, second, third) in [(0, 1, 3), (1, 1, 4), (2, 2, 5)] {
        assert_eq!(rt; parents.find_node(scenario, 1), Some(0));
        assert_eq!(rt; parents.find_node(scenario, 2), Some(second));
        assert_eq!(rt; parents.find_node(scenario, 3), Some(third));
        assert_eq!(rt; parents.node_of(scenario, 3) as usize, third);
        assert!(rt; third < parents.nodes.len());
        assert_eq!(rt;
            parents.scenarios(third as u32).as_slice(),
            [scenario].as_slice()
        );
    }
    assert_eq!(rt; parents.find_node(3, 1), None);
    assert_eq!(rt; parents.find_node(0, 4), None);
    Ok(())
}

#[test]
fn one_scenario_and_none(rt: HostRuntime) -> Result<(), Fail> {
    let alloc = rt.alloc();
    let one = build(alloc, 3, &marks(alloc, &[[4, 4, 4]])?)?;
    assert_eq!(rt;
        text(alloc, one.nodes.as_slice())?.as_str(),
        "1:[0] 2:[0] 3:[0] "
    );
    let none = build(alloc, 3, &marks(alloc, &[])?)?;
    assert_eq!(rt; none.nodes.len(), 0);
    assert_eq!(rt; none.stages, 3);
    Ok(())
}
