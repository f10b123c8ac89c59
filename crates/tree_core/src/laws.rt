ghost use Rattle.std.specs.Prelude.{ℕ, ◌*◌, ◌≤◌, List, length, IsSome};
ghost use Rattle.std.specs.List.{All, AllPairs};
ghost use Rattle.tree_core.specs.Marks.{AreNested, tree_of};
ghost use Rattle.tree_core.specs.declared.tree.Node.{Node};
ghost use Rattle.tree_core.specs.Nodes.{node_number, AreNestedNodes, IsNode, Precedes, ShareByMarks, StandOnce, StandsOnce};

/// What the tree of marks is, in words that don't make it: at each stage each
/// scenario stands once, two scenarios share a node exactly where their marks
/// are equal, nodes and their scenarios stand in order, and no node is empty.
pub fn tree_of_marks()
    ensures once { (stages : ℕ) (owners : List (List ℕ)) →
        StandOnce stages (length owners) (tree_of stages owners).nodes }
    ensures shared { (stages : ℕ) (owners : List (List ℕ)) →
        ShareByMarks stages owners (tree_of stages owners).nodes }
    ensures nodes { (stages : ℕ) (owners : List (List ℕ)) →
        All (IsNode stages (length owners)) (tree_of stages owners).nodes }
    ensures ordered { (stages : ℕ) (owners : List (List ℕ)) →
        AllPairs Precedes (tree_of stages owners).nodes }
    ensures few { (stages : ℕ) (owners : List (List ℕ)) →
        length (tree_of stages owners).nodes ≤ stages * length owners }
{}

/// Where equal marks at a stage are equal at the stage before, the scenarios of
/// a node stand in one node of the stage before.
pub fn nested_marks()
    ensures { (stages : ℕ) (owners : List (List ℕ)) →
        AreNested stages owners → AreNestedNodes stages (length owners)
        (tree_of stages owners).nodes }
{}

/// A scenario that stands once at a stage is in a node of that stage, so that
/// `node_of` may be asked for it.
pub fn node_is_found()
    ensures { (nodes : List Node) (t s : ℕ) → StandsOnce nodes t s
        → IsSome (node_number nodes s t) }
{}
