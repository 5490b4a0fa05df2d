//! Laws of the root of a build. Each is a function that does nothing, and ensures the law.
ghost use Rattle.std.specs.Prelude.{◌≡◌, ◌⊎◌, ℕ, true, [], Some};
ghost use Rattle.std.specs.FinMap as fin;
ghost use Rattle.br_path.specs.Path.{Names};
ghost use Rattle.br_path.specs.declared.area.Area.TheVariants.{Target};
ghost use Rattle.plan_rows.specs.Plan.{Planned};
ghost use Rattle.task_shelves.specs.Packages.{Left, IsLeft, wrote};
ghost use Rattle.task_shelves.specs.Shelf.{ShelfData};
ghost use Rattle.tree_ops.specs.declared.entry.Node.{Node};
ghost use Rattle.tree_ops.specs.Tree.{node_at};
ghost use Rattle.root_merge.specs.Overwrites.{overwrites_of};
ghost use Rattle.root_merge.specs.Roots.{Standing, standing, first_root, root_of};

/// Where nothing is overwritten, the root has at each path what every package left there that wrote the path.
///
/// So it has no effect in which order the packages' trees are laid over each other.
#[tactic(auto, using(crate::proofs::Each::each_heard))]
pub fn order_has_no_effect()
    ensures { (plan : Planned) (shelves : ℕ → ShelfData) → overwrites_of plan shelves ≡ [] → (left : Left) → IsLeft plan shelves left → (path : Names) (node : Node) → wrote Target path left ≡ true → node_at left.trees.target path ≡ Some node
        → fin.get (root_of plan shelves) path ≡ Some (standing left.trees.target node) }
{}

/// All that stands in a root some package wrote, except for the root folder where none did.
#[tactic(auto, using(crate::proofs::Each::all_heard))]
pub fn root_is_written()
    ensures { (plan : Planned) (shelves : ℕ → ShelfData) (path : Names) (s : Standing) → fin.get (root_of plan shelves) path ≡ Some s
        → ((left : Left) × IsLeft plan shelves left × (wrote Target path left ≡ true) × (node : Node) × (node_at left.trees.target path ≡ Some node) × (s ≡ standing left.trees.target node)) ⊎ ((path ≡ []) × (s ≡ first_root.1)) }
{}
