//! Laws of graphs, each the contract of a function that does nothing.
ghost use Rattle.std.specs.Prelude.{◌≡◌, ◌≢◌, ◌<◌, ◌≤◌, ◌+◌, ◌↔◌, ◌⊎◌, ◌∷◌, [], ℕ, List, length, Contains};
ghost use Rattle.gb_text.specs.declared.id.Name.{Name};
ghost use Rattle.dag_graph.specs.Below.{IsAncestor, IsBelow, IsRing, added};
ghost use Rattle.dag_graph.specs.Faults.{ClocksRise, GraphFaultHolds, HasClockOrder, IsFaultless, IsRoot};
ghost use Rattle.dag_graph.specs.Nodes.{AreNodes, node_at};
ghost use Rattle.dag_graph.specs.declared.fault.GraphFault.TheVariants as fault;
ghost use Rattle.dag_graph.specs.declared.node.Node.{Node};

/// 'Below' and 'ancestor' are reflexive and transitive.
pub fn below_is_transitive()
    ensures heads { (nodes : List Node) (heads : List Name) (name : Name) → Contains heads name
        → IsBelow nodes heads name }
    ensures through { (nodes : List Node) (heads others : List Name) (name : Name)
        → ((low : Name) → Contains others low → IsBelow nodes heads low)
        → IsBelow nodes others name → IsBelow nodes heads name }
    ensures itself { (nodes : List Node) (name : Name) → IsAncestor nodes name name }
    ensures ancestors { (nodes : List Node) (low mid high : Name) → IsAncestor nodes low mid
        → IsAncestor nodes mid high → IsAncestor nodes low high }
{}

/// 'Below' is what adding parents gives, repeated as often as there are nodes.
pub fn below_is_what_adding_parents_gives()
    ensures { (nodes : List Node) (heads : List Name) (name : Name)
        → IsBelow nodes heads name ↔ Contains (added nodes heads (length nodes)) name }
{}

/// If clocks rise, every other ancestor has a smaller clock, and two nodes that are ancestors of
/// each other are the same node.
pub fn ancestors_have_lesser_clocks()
    ensures lesser { (nodes : List Node) (low high : Node) → AreNodes nodes → ClocksRise nodes
        → Contains nodes low → Contains nodes high → IsAncestor nodes low.name high.name
        → (low ≡ high) ⊎ (low.edit < high.edit) }
    ensures mutual { (nodes : List Node) (one other : Node) → AreNodes nodes → ClocksRise nodes
        → Contains nodes one → Contains nodes other → IsAncestor nodes one.name other.name
        → IsAncestor nodes other.name one.name → one ≡ other }
{}

/// In a ring some clock is not greater than a parent's.
pub fn a_ring_has_a_clock_fault()
    ensures { (nodes : List Node) (name : Name) → AreNodes nodes → IsRing nodes name
        → (high : Name) × (low : Name) × HasClockOrder nodes high low }
{}

/// A graph with the cause of a fault has that fault, with its numbers and the commit that it names.
pub fn graph_faults_are_known()
    ensures root { (nodes : List Node) (one other : Node) → Contains nodes one
        → Contains nodes other → one.name ≢ other.name → one.parents ≡ [] → other.parents ≡ []
        → GraphFaultHolds nodes (fault.SecondRoot one.name) }
    ensures order { (nodes : List Node) (child parent : Node) → Contains nodes child
        → Contains nodes parent → Contains child.parents parent.name → child.edit ≤ parent.edit
        → GraphFaultHolds nodes (fault.ClockOrder child.name parent.name) }
    ensures jump { (nodes : List Node) (child parent : Node) → Contains nodes child
        → Contains nodes parent → child.parents ≡ parent.name ∷ []
        → parent.edit + 1000000 < child.edit
        → GraphFaultHolds nodes (fault.ClockJump child.name parent.name) }
    ensures near { (nodes : List Node) (high low : Name)
        → ((child parent : Node) → Contains nodes child → Contains nodes parent
        → child.parents ≡ parent.name ∷ [] → child.edit ≤ parent.edit + 1000000)
        → GraphFaultHolds nodes (fault.ClockJump high low) → ⊥ }
    ensures merge { (nodes : List Node) (commit : Node) → Contains nodes commit
        → 2 ≤ length commit.parents → 1 ≤ commit.count
        → GraphFaultHolds nodes (fault.MergeHasOperations commit.name) }
{}

/// A graph without a fault has exactly one root, and every node leads to it.
pub fn a_graph_without_faults_has_one_root()
    ensures { (nodes : List Node) → AreNodes nodes → IsFaultless nodes
        → (root : ℕ) × IsRoot nodes root × ((place : ℕ) → place < length nodes
        → IsAncestor nodes (node_at nodes root).name (node_at nodes place).name) }
{}

/// A graph without the cause of a fault does not have that fault: `SecondRoot` needs two names of
/// roots, `ClockOrder` a clock that does not rise above a parent's, `MergeHasOperations` a merge
/// commit with operations. A fault names its commit.
pub fn graph_faults_have_causes()
    ensures root { (nodes : List Node) (name : Name)
        → ((one other : Node) → Contains nodes one → Contains nodes other
        → one.parents ≡ [] → other.parents ≡ [] → one.name ≡ other.name)
        → GraphFaultHolds nodes (fault.SecondRoot name) → ⊥ }
    ensures order { (nodes : List Node) (high low : Name)
        → ((child parent : Node) → Contains nodes child → Contains nodes parent
        → Contains child.parents parent.name → parent.edit < child.edit)
        → GraphFaultHolds nodes (fault.ClockOrder high low) → ⊥ }
    ensures merge { (nodes : List Node) (name : Name)
        → ((commit : Node) → Contains nodes commit → 2 ≤ length commit.parents → commit.count ≡ 0)
        → GraphFaultHolds nodes (fault.MergeHasOperations name) → ⊥ }
    ensures root_named { (nodes : List Node) (name : Name)
        → GraphFaultHolds nodes (fault.SecondRoot name)
        → (commit : Node) × Contains nodes commit × (commit.name ≡ name) × (commit.parents ≡ []) }
    ensures order_named { (nodes : List Node) (high low : Name)
        → GraphFaultHolds nodes (fault.ClockOrder high low)
        → (commit : Node) × Contains nodes commit × (commit.name ≡ high)
        × Contains commit.parents low }
    ensures jump_named { (nodes : List Node) (high low : Name)
        → GraphFaultHolds nodes (fault.ClockJump high low)
        → (commit : Node) × Contains nodes commit × (commit.name ≡ high)
        × (commit.parents ≡ low ∷ []) }
    ensures merge_named { (nodes : List Node) (name : Name)
        → GraphFaultHolds nodes (fault.MergeHasOperations name)
        → (commit : Node) × Contains nodes commit × (commit.name ≡ name)
        × (2 ≤ length commit.parents) × (1 ≤ commit.count) }
{}
