//! The users of each task: the tasks that need it.
ghost use Rattle.std.specs.Prelude.{◌≡◌, ◌<◌, All, IfOk, OnOk, length};
ghost use Rattle.dep_graph.specs.Needs.{IsNeeds};
ghost use Rattle.dep_graph.specs.Waiting.{used_by, AreUsers};

use br_path::Memory;
use dep_graph::Graph;
use std::alloc::Global;

/// For each task those that need it.
pub(crate) fn users_of(alloc: Global, graph: &Graph) -> Result<cycle_walks::Graph, Memory>
    ensures needs { IsNeeds graph.now }
    ensures count { IfOk result (λ users. length users ≡ length graph.now) }
    ensures users { IfOk result (AreUsers graph.now) }
{
    let count = graph.count();
    let mut users = cycle_walks::Graph::new(alloc, count)?;
    for task in 0..count {
        add_user(&mut users, task, graph.needs(task))?;
    }
    Ok(users)
}

/// Makes a task a user of each of its needs.
fn add_user(users: &mut cycle_walks::Graph, task: u32, needs: &[u32]) -> Result<(), Memory>
    requires task { task < length users.old }
    requires needs { All (λ need. need < length users.old) needs.now }
    ensures { OnOk result (users.new ≡ used_by users.old task needs.now) }
{
    for need in needs {
        users.add(*need, task)?;
    }
    Ok(())
}
